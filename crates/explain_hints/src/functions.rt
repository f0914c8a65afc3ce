//! Functions that other languages have, with what to write instead.

use crate::rules::entry_of;

/// Functions that do not exist in the language. A line is `WORDS -> HINT`.
static FUNCTIONS: &str = r#"
trace print println echo puts fprintf log tracef printi prints write writeln disp display cat cout say -> write printf("%i", n); for a number, and printf("%s", s); for a string
sprintf format str string itoa int2string to_string tostring toString repr fromfloat int2str num2str itos inttostring -> write "n = " + fromint(n): fromint is the string of a number, and + joins strings
atoi string2int parseint parseInt to_int tofloat stoi parse str2num int -> write toint(s) for the number in a string
strlen length len count size_of sizeof numel length_of -> write size(A) for an array; a string has no length
substring substr split replace find strip trim upper lower toupper tolower uppercase lowercase substr_ strcmp equals startswith indexof ord chr -> no function takes a string apart: + joins strings, and == and != compare them
concat -> write a + b
join -> join along an array: t[0] = A[0]; foreach i in [1:9] { t[i] = t[i - 1] + "," + A[i]; }
max max_integer -> write it as a function: (int r) max(int a, int b) { if (a > b) { r = a; } else { r = b; } }
min min_integer -> write it as a function: (int r) min(int a, int b) { if (a < b) { r = a; } else { r = b; } }
maximum minimum largest smallest -> go along an array: m[0] = A[0]; foreach i in [1:9] { if (A[i] > m[i - 1]) { m[i] = A[i]; } else { m[i] = m[i - 1]; } }
pow pow_integer exp power -> write it as a function: (int p) pow(int b, int n) { if (n <= 0) { p = 1; } else { p = b * pow(b, n - 1); } }
sqrt isqrt -> write it as a function: (int r) sqrt(int n, int g) { if (g * g <= n) { r = g; } else { r = sqrt(n, g - 1); } } and sqrt(n, n)
mod modulo rem fmod -> the remainder is %%: 7 %% 2
div quotient -> whole numbers are divided by %/: 7 %/ 2
floor ceil round trunc -> leave it out: there are only whole numbers, and %/ drops the remainder
sqr square -> write x * x
gcd -> write it as a function: (int g) gcd(int a, int b) { if (b == 0) { g = a; } else { g = gcd(b, a %% b); } }
factorial fact -> write it as a function: (int r) factorial(int n) { if (n <= 1) { r = 1; } else { r = n * factorial(n - 1); } }
sign sgn signum -> write it as a function: (int r) sign(int n) { if (n > 0) { r = 1; } else if (n < 0) { r = -1; } else { r = 0; } }
abs abs_integer fabs -> write it as a function: (int r) abs(int n) { if (n < 0) { r = -n; } else { r = n; } }
sum total -> add along an array: s[0] = A[0]; foreach i in [1:9] { s[i] = s[i - 1] + A[i]; }
contains includes member -> mark what fits, a value v or a key k: int hit[]; foreach v, k in A { if (v == 2) { hit[k] = 1; } }, and test size(hit) > 0
exists has isset has_key -> nothing tells whether an element is there: write a value for each key, or note the keys in a second array
range -> write foreach i in [0:9] { .. }: a range stands after in
argv args argp getenv input read glob open fopen readline readln readint gets scanf stdin file system exec run time now date clock -> a script reads no files and no arguments: write the value into it, int n = 10;
exit quit stop abort error throw raise -> leave it out: a run ends when all statements have run; assert(x > 0, "x is positive"); ends it before
random rand randint seed -> every run gives the same values: compute numbers from a seed, s[i] = (s[i - 1] * 75 + 74) %% 65537
assertEqual assert_eq assertTrue check require expect -> write assert(x == 1, "x is 1");
append push add push_back insert extend -> write an element by its key: A[i] = 3;
array list vector -> write int A[];, or with values int A[] = [1, 2];
zeros ones linspace arange -> write a loop: foreach i in [0:9] { A[i] = 0; }
sleep wait_for fork spawn parallel -> leave it out: each statement runs as soon as its values are there, and wait (x) { .. } runs after x
sort sorted -> the place of an element is the number of smaller ones: count them in a function, and write B[place] = v;
reverse map filter reduce -> write a loop: foreach v, i in A { B[i] = v * 2; }
keys values items -> write foreach v, k in A { .. }: v is the value, and k is its key
if_else iff ifelse -> write if (x > 0) { y = 1; } else { y = 2; }
not -> write !(x > 0)
and -> write x > 0 && y > 0
or -> write x > 0 || y > 0
sin cos tan log10 ln itof float -> there are only whole numbers: scale them, 1500 for 1.5, and write the function for these
"#;

/// Returns the hint about a function of another language, or `None` if there is no such name among them.
pub fn on_function(name: &[u8]) -> Option<&'static str> {
    entry_of(FUNCTIONS, name)
}
