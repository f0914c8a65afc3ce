//! Rules about bytes that begin no token. The word after `found=` is what the text has there.

/// The rules about such a byte, as `rules` reads them.
pub static BYTE_RULES: &str = r#"
# Signs of other languages.
when found=. & % |
found=. last=$name before_last=in first=foreach -> write foreach v, k in A { .. } for values and keys, or foreach i in [0:size(A) - 1] { .. }
found=. last=console System Console sys std io -> write printf("%s", s);
found=.length .size .count .len last=$text -> a string has no length: keep its letters in an array, and write size(A)
found=.length .size .count .len last=$name ] -> write size(A) for the number of elements
found=.push .append .add -> write an element by its key: A[i] = 3;
found=. first=@ second=prio -> a priority is a whole number: @prio=5 f(3);
found=%i %s %d %f %b last=( , -> write the format in quotes: printf("%i", x);
found=& | next=$number -> there are no operators on bits: x %% 2 == 0 tests whether x is even
found=. & last=$text -> write + to join strings: "a" + "b"
found=... -> write each input and each value: nothing is left out
found=.. -> write : between the ends of a range: [0:9]
found=. gap=none last=$number -> there are only whole numbers: scale them, 1500 for 1.5
found=.0 .1 .2 .3 .4 .5 .6 .7 .8 .9 -> there are only whole numbers: scale them, 1500 for 1.5
found=. -> there are no fields and no methods: write A[i] or A["name"] for an element, and f(x) for a call
found=%= -> a variable is assigned once, and the remainder is %%: int y = x %% 3;
found=% last=$text -> write the values after the format: printf("n = %i", n);
when last=; { } $end
found=% ' -> write // before a comment, and " around a string
when gap=line comment
found=% ' -> write // before a comment, and " around a string
when found!=.
found=/= -> write != for unequal; a variable is assigned once: int y = x %/ 3;
found=~= -> write != for unequal
found=/ -> write %/ to divide whole numbers, and // before a comment
found=% -> write %% for the remainder, and %/ to divide
found=# -> write // before a comment; nothing is included into a script
found=? -> write if (x > 0) { y = 1; } else { y = 2; }, after int y;
found=' ` -> write " around a string
found=& last=$type -> leave the & out: there are no references
found=& -> write && for and
found=| -> write || for or
found=^ -> write x * x, or a function that multiplies: there are no powers and no operators on bits
found=~ -> write ! for not; there are no operators on bits
found=$ -> leave the $ out
found=\ -> leave the \ out: a statement goes on to its ;, and %/ divides whole numbers

# Characters that resemble those of ASCII.
when found!=.
found=‘ ’ ‚ “ ” „ « » -> this is a typographic quote: write "
found=– — − -> this is a dash: write -
found=× -> write *
found=÷ -> write %/
found=≤ -> write <=
found=≥ -> write >=
found=≠ -> write !=
"#;
