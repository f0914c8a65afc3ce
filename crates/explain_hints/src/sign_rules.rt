//! Rules about operators, separators, brackets and ends of statements.

/// The rules about operators and separators, as `rules` reads them.
pub static SIGN_RULES: &str = r#"
# An = that is part of an operator of another language.
when found==
joined=> opener=( -> write >= for at least
joined=> -> write wait (x) { .. } for what comes after x: there is no =>
joined=< -> write <= for at most
last=!= -> write != for unequal
joined=! opener=( -> write != for unequal
when found== last=) opener!=( [
closed=$name -> write A[1] = 3; for an element, and int x = f(1); for the value of a call
before_last=( -> leave () and = out: f(3); calls a function without outputs

# Another =.
when found== opener=[
opener_before!=@first opener!=@last -> write == to compare: x == 3
when found== opener!=[
opener=( opener=@first ->opener a ) is missing for the (
last=== -> write == to compare: x == 3
opener_before=if -> write == to compare: x == 3
opener=( -> write == to compare; the inputs of a call have no names: f(3)
first=foreach -> write foreach i in [0:9] { .. }
second== last!=$type first=boolean -> write == to compare: x == 3
third== last!=$type first=boolean -> write == to compare: x == 3
second== last!=$type first!=@ -> assign one variable at a time: y = 3; x = y;
third== last!=$type first!=@ -> assign one variable at a time: y = 3; x = y;

# A comma in brackets.
when found=,
last=, -> leave one , out
last=[ next=$type ->opener a ] is missing for the [
last=( [ -> a value is missing before the ,
opener=[ opener_before=in -> give the array a name first: int A[] = [1, 2]; foreach v in A { .. }
opener=[ opener_before=$name -> arrays have one index: A[i * n + j]
opener=( opener_before=if -> write && or || between conditions: x > 0 && y > 0
opener=( opener_before== -> write the values of an array in square brackets: int A[] = [1, 2];
opener=( opener_before=$value_start ->opener a ) is missing for the (

# A comma outside of brackets.
when found=, opener!=( [
gap=none last=$number joined=$number -> write 1000 for 1,000
gap=none last=$number next=$end -> leave this , out: 1000 for 1,000, and a statement ends with ;
first=foreach -> a loop has a value and at most a key: foreach v, i in A { .. }
first=$type third=[ last!=] -> write the values of an array in square brackets: int A[] = [1, 2];
first=$type -> declare one name at a time: int x; int y;
first=$name first=@last -> write the names in brackets: (x, y) = f(1);
-> write ; at the end of a statement; a ( may be missing for the ,

# A colon.
when found=:
joined== -> write = to assign: x = 3;
opener!=[ joined=: -> leave the :: and what is before it out: f(x)
opener!=[ next=$type -> write the type before the name: int x = 1;
opener=( -> leave the name out: f(x)
opener!=( [ last=) -> write ; at the end of a statement, and not :
opener!=[ last=] $name -> write = to assign: x = 3;
opener=[ opener_before=in last=[ -> a range has both of its ends: [0:9]
opener=[ opener_before=in -> a range has two bounds and at most a step: [0:9:3]
opener=[ opener_before=$name first=string third!=[ -> no part is taken out of a string: keep its parts in variables of their own, and join them by +
opener=[ opener_before=$name -> copy elements one by one, foreach i in [0:3] { B[i] = A[i]; }; no part is taken out of a string
opener=[ last=$text -> write elements with text keys one by one: A["a"] = 1;
opener=[ -> fill the array in a loop: int A[]; foreach i in [0:9] { A[i] = i; }

# Operators of two signs that other languages have.
when found=$operator
last=* found=* -> write x * x, or a function that multiplies: there are no powers
last=< found=> -> write != for unequal
last== found=< -> write <= for at most
last=< found=< -> write x * 8 for x << 3, and x %/ 8 for x >> 3: there are no operators on bits
last=> found=> -> write x * 8 for x << 3, and x %/ 8 for x >> 3: there are no operators on bits
last=- found=> -> write A[i] for an element, and x = f(3); for the value of a call: there is no ->
last=+ found=+ before_last=$text -> write one + to join strings: "a" + "b"
found=$arithmetic && || joined== -> a variable is assigned once: write int y = x + 3;, or in a loop s[i] = s[i - 1] + 3;
found=- joined=- found=@first -> write // before a comment, and int j = i - 1; for a smaller value
found=- joined=- -> a variable is assigned once: write int j = i - 1;, or in a loop s[i] = s[i - 1] - 1;
found=+ joined=+ -> a variable is assigned once: write int j = i + 1;, or in a loop s[i] = s[i - 1] + 1; foreach i in [0:9] { .. } counts by itself
last=+ found=+ -> a variable is assigned once: write int j = i + 1;, or in a loop s[i] = s[i - 1] + 1; foreach i in [0:9] { .. } counts by itself
found=- joined=> -> write A[i] for an element, and x = f(3); for the value of a call: there is no ->
found=* joined=* -> write x * x, or a function that multiplies: there are no powers
found=$arithmetic last=] closed== -> write the elements in a loop: foreach i in [0:9] { A[i] = 0; }

# A comparison where an = is required, or after another comparison.
when found=$comparison last!=$type
found=< next=$type first=@last -> write int A[]; for an array, and int A[string]; for one with text keys
found=< next=$type first=$type second=@last -> write int A[]; for an array, and int A[string]; for one with text keys
first=@last -> write = to assign: x = 3;
first=$type second=@last -> write = to assign: x = 3;
last=] closed=@first -> write = to assign: x = 3;
last=$value_end -> compare two values at a time: a < b && b < c

# An operator on the wrong side of a value.
when found=$operator
found=+ last=$value_start -> leave the + out
found=! last=$value_end -> write != for unequal, and !b for not
found=* last=$type -> leave the * out: there are no pointers
found=- first=$type second=@last -> write _ in a name: my_name
"#;

/// The rules about brackets and ends of statements, as `rules` reads them.
pub static END_RULES: &str = r#"
# Square brackets.
when found=[
found=@first -> write round brackets: (x, y) = f(1);
last=$type next=$type -> write the brackets after the name: int age[string];
last=$type -> write the brackets after the name: int A[];
last=] before_last=[ next=$plain -> write = before the values: int A[] = [1, 2];
last=] closed== -> give the array a name first: int A[] = [1, 2]; int x = A[0];
last=] -> arrays have one index: A[i * n + j]
last=) -> give the array a name first: int A[] = f(3); int x = A[0];
last=$name before_last=in -> foreach goes over a range, as [0:9], or over an array by its name
last=( , -> give the array a name first: int A[] = [1, 2]; f(A);
last=[ -> arrays have no arrays in them: A[i * n + j]
last=$operator -> write the values of an array alone after =: int A[] = [1, 2];

# Curly brackets.
when found={
found=@first -> leave the braces out, or write if (true) { .. }
last== ( , in next=$text -> write square brackets, ["a", "b"]; elements with text keys are written one by one: A["a"] = 1;
last== ( , in -> write the values of an array in square brackets: int A[] = [1, 2];
last=] first=$type next=$text -> write square brackets, ["a", "b"]; elements with text keys are written one by one: A["a"] = 1;
last=] first=$type -> write the values of an array in square brackets: int A[] = [1, 2];
last=$name gap=none -> write A[0] for an element, and f(x) for a call; a block comes after if, foreach, wait or the head of a function
last=$name opener={ $end -> write A[0] for an element, and f(x) for a call; a block comes after if, foreach, wait or the head of a function

# Round brackets.
when found=(
last=range before_last=in -> write foreach i in [0:9] { .. }, with both ends of the range
last=enumerate items keys values before_last=in -> write foreach v, k in A { .. }, with the value and the key of each element
last=$name before_last=in -> give the array a name first: int A[] = f(3); foreach v in A { .. }
last=$type gap!=line comment -> declare the names before: int x; int y; (x, y) = f(1);
last=) $number gap!=line comment -> write * to multiply, 3 * (4), and f(3) for a call
last=] closed!=@first gap!=line comment -> write * to multiply, 3 * (4), and f(3) for a call
when found=] ) } last=,
->last leave this , out, or write the value that is missing after it
when found=]
opener_before=in last=: -> a range has both of its ends: [0:9]
opener_before=in -> foreach goes over a range, as [0:9], or over an array by its name
last=[ opener_before=@first -> give the element a key, A[0] = 3;, or assign the whole array: A = f(3);
last=[ opener_before=$name -> write A for the whole array, without brackets
last=[ -> leave = and the brackets out: int A[]; has no elements yet
when found=) last=(
opener_before=if -> a condition is missing: if (x > 0) { .. }
opener_before=$value_start -> a value is missing in the brackets

# The brackets of a declaration, and a type before a value.
when found=$plain $type opener=[ opener=@last
first=$type opener_before=@second -> leave the length out: int A[]; takes any numbers as keys, and int A[string]; strings
second=$type outer=( -> leave the length out: int A[]; takes any numbers as keys, and int A[string]; strings
found=$type -> leave the length out: int A[]; takes any numbers as keys, and int A[string]; strings
when found=$type
next=( last=$value_start -> write toint(s) for the number in a string, and fromint(n) for the string of a number
last=( opener_before=$operator , next=) -> leave the type out, or write toint(s) for the number in a string, and fromint(n) for the string of a number
last=( opener_before=$operator , -> write toint(s) for the number in a string, and fromint(n) for the string of a number

# A ; or an else too many.
when found=; else
found=; found=@first last=} -> leave this ; out: none comes after a }
found=; found=@first -> leave this ; out: a statement ends with one
found=else closed=else -> an if has one else: write else if (x > 0) { .. } for the one before
found=else -> write else right after the } of its if: if (x > 0) { .. } else { .. }

# Priorities.
when first=@ opener!=( second=prio found=$number
last== third=@last -> a priority is a number from -1000000 to 1000000: @prio=5 f(3);
last=- before_last== third=@before_last -> a priority is a number from -1000000 to 1000000: @prio=-5 f(3);
when first=@ opener!=(
second=prio third== third=@last found=$name ( -> write the number itself: @prio=5 f(3);
last=@second @third -> write @prio=5 before a call: @prio=5 f(3);
last!=) found!=$plain -> write @prio=5 before a call: @prio=5 f(3);
when last!=$value_end
found=@ -> write @prio=5 before a call: @prio=5 f(3);
last=@ -> write @prio=5 before a call: @prio=5 f(3);

# A value as a statement, and a statement as a value.
when found=@first
found=$number $text true false - ! -> assign this value or print it: int y = x + 1;, printf("%i", x + 1);
when found!=@first
first=exit quit stop halt first=@last found=; -> leave it out: a run ends when all statements have run
first=( first=@last found=$plain -> assign this value or print it: int y = x + 1;, printf("%i", x + 1);
first=$name first=@last found=; $arithmetic -> assign this value or print it: int y = x + 1;, printf("%i", x + 1);
first=$name closed=@first last=) ] found=; $arithmetic -> assign this value or print it: int y = x + 1;, printf("%i", x + 1);
first=( last=) found=; $arithmetic -> assign this value or print it: int y = x + 1;, printf("%i", x + 1);
when found=$form in
found=$form last=$value_start -> assign the variable in the branches: int y; if (x > 0) { y = 1; } else { y = 2; }
found=if last=$plain first!=$type gap!=line comment -> write the if first, with blocks: if (x > 0) { y = 1; } else { y = 2; }
found=if last=$plain second!=@last gap!=line comment -> write the if first, with blocks: if (x > 0) { y = 1; } else { y = 2; }
found=in last=$value_end first!=foreach -> nothing tells whether an element is there: note in a second array which keys are

# A call without brackets, and a type in a call or in a value.
when found=$plain last=$name gap!=line comment
first=@last -> write f(x); to call a function, and x = 3; to assign
first=@ -> write f(x); to call a function, and x = 3; to assign
when found=$type
opener=( opener_before=if -> declare the variable before: int x = 3; if (x == 3) { .. }
opener=( opener_before=$name -> leave the type out: f(x)
last=$operator -> leave the type out, or declare a variable before: int x = 3;

# Brackets that are not closed or not opened.
when opener=(
found=$past ] ->opener a ) is missing for the (
found=$name gap=line comment ->opener a ) is missing for the (
when opener=[
found=$past ) ->opener a ] is missing for the [
found=$name gap=line comment ->opener a ] is missing for the [
when opener={
found=$end ->opener a } is missing for the {
found=) -> no ( is open for this )
found=] -> no [ is open for this ]
when opener=$end first=$type second=@last found=) next=$name
->first write (int r) f(int n) { r = n; }: a ( is missing
when opener=$end
found=) -> no ( is open for this )
found=] -> no [ is open for this ]
found=} -> no { is open for this }

# A missing , or operator in brackets.
when last=$value_end found=$text
last=$name gap=none -> leave the letter before the string out, and join values by +: "x = " + fromint(x)
when last=$value_end opener=( [
opener_before=printf found=$text last=$text -> write one string as the format: printf("x is %i", x);
found=$text last=$text -> write + to join strings: "a" + "b"
opener_before=in -> write : between the ends of a range: [0:9]
found=$plain -> a , or an operator is missing before this

# A missing ; or = or operator outside of brackets.
when first=import opener!=( [
gap=comment ->after // begins a comment, and %/ divides whole numbers: a ; is missing
gap=line ->after a ; is missing
found=$beginning } $end @ ->after a ; is missing
when last=$value_end opener!=( [
gap=comment ->after // begins a comment, and %/ divides whole numbers: a ; is missing
gap=line ->after a ; is missing
found=$beginning } $end @ ->after a ; is missing
found=$name first=$type second=@last ->after write my_name for a name of two words, or a = is missing
first=$type second=@last ->after a = is missing
first=$name last=] closed=@first ->after a = is missing
found=$text last=$text -> write + to join strings: "a" + "b"
found=$plain last=$name ->after a ;, an operator or the ( of a call is missing
found=$plain ->after a ; or an operator is missing

# A missing value or name.
when last!=$end
last== first=( -> only a call has several values, (x, y) = f(1); else assign one variable at a time
last=- before_last=- found!=- -> a variable is assigned once: write int j = i - 1;, or in a loop s[i] = s[i - 1] - 1;
last=$operator ->last a value is missing after the operator
last=, ->last something is missing after the ,
last=$type ->last a name is missing after the type
when found=$operator
found=* found=@first -> a value is missing before this; a comment ends at the first */
found=* last=$opening -> a value is missing before this; a comment ends at the first */
found=@first -> a value is missing before this operator
last=$opening -> a value is missing before this operator
"#;
