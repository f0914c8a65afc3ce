//! Dictionaries of words that other languages have. A line is `WORDS -> HINT`.

/// Returns the dictionary with this name, which the rules use.
pub fn dictionary(name: &str) -> &'static str {
    if name == "statements" {
        STATEMENTS
    } else if name == "types" {
        TYPES
    } else {
        OPERATORS
    }
}

/// Words that begin a statement in other languages, but not in this one.
static STATEMENTS: &str = r#"
for forall parallel parfor foreach_ each -> the one loop is foreach: foreach i in [0:9] { .. }; a value for the next turn is an element: s[i] = s[i - 1] + 1
iterate while until repeat loop do goto whlie wihle wile -> there is no loop with a condition: write foreach i in [0:9] { .. }, or a function that calls itself in an if
break -> all turns of a loop run at once, and none ends it: write if (x > 0) { .. } around what some turns leave out
continue -> a turn has no early end: write if (x > 0) { .. } around what it leaves out
switch match case default otherwise swich swtich -> write if (x == 1) { .. } else if (x == 2) { .. } else { .. }
elif elsif elseif -> write else if (x > 0) { .. }
main -> leave main and its braces out: a script begins with its first statement
app -> a script calls no programs: write a function, (int r) f(int n) { r = n; }
global -> leave global out: int n = 4;, and pass n to each function that reads it
const final static mutable mut val local my our dim DIM volatile register -> leave the word out, every variable is assigned once: int n = 4;
type typedef struct class enum -> there are no types of your own: write a variable or an array for each part, int x; int y;
package include using from use module extern namespace require -> a script is one file, and its modules are io, string and assert: import io;
return retrun retunr retrn -> assign the output: (int r) f(int n) { r = n; }
def function func fn sub proc procedure subroutine method lambda public private export inline template -> write the outputs first: (int r) f(int n) { r = n + 1; }
try -> a fault ends the run: test before it, if (y != 0) { .. }
print println echo cout cerr std write writeln puts disp display Print Println printline -> write printf("%i", n); for a number, and printf("%s", s); for a string
pragma -> leave the line out: a script has no settings
end endif endfor endwhile fi done begin -> write { and } around a block
then -> leave then out: if (x > 0) { .. }
unless -> write if (!(x > 0)) { .. }
when given select -> write if (x > 0) { .. }, or wait (x) { .. } for what comes after x
call -> leave the word out: f(3);
delete del free -> leave this out: a variable and an element keep their value to the end
throw raise catch except panic -> write assert(x > 0, "x is positive"); a run ends where it does not hold
async await spawn sync future -> leave the word out: each statement runs as soon as its values are there, and wait (x) { .. } runs after x
pass -> leave pass out: a block may be empty, { }
REM rem -> write // before a comment
"#;

/// Words that are types in other languages, but not in this one.
static TYPES: &str = r#"
float double real Float Double f32 f64 decimal -> there are only whole numbers, so scale them, 1500 for 1.5: write int
bool Bool Boolean logical -> write boolean
Int Integer integer long short unsigned number byte i32 i64 u32 u64 uint size_t int64 int32 int8_t int16_t int32_t int64_t uint8_t uint16_t uint32_t uint64_t INTEGER -> write int
str String char text Str chars varchar -> write string
void -> () f(int n) { .. } has no outputs: leave void out
file blob -> a script reads and writes no files: write int, string or boolean
var let auto any -> write int, string or boolean
list List array Array vector Vector tuple set -> write int A[];
map Map dict Dict hash object struct -> for an array with text keys, write int A[string];
const final val mut ref out inout -> leave the word out
future Future promise async await -> every variable is waited for: leave the word out
"#;

/// Operators that are words in other languages.
static OPERATORS: &str = r#"
and -> write && for and
or -> write || for or
not -> write ! for not
mod -> write %% for the remainder
div -> write %/ to divide whole numbers
new -> leave new out: int A[]; declares an array, and A[0] = 3; writes an element
begin do -> write { and } around a block
then -> leave then out: if (x > 0) { .. }
await async spawn sync -> leave the word out: int x = f(3); has its value when f has ended
is eq -> write == to compare
ne isnt -> write != for unequal
lt -> write < for less
gt -> write > for greater
le -> write <= for at most
ge -> write >= for at least
xor -> write a != b, which is true if one of two booleans is
as -> write toint(s) for the number in a string, and fromint(n) for the string of a number
plus -> write + for plus
minus -> write - for minus
times -> write * for times
to -> write : between the ends of a range: [0:9]
for -> write a loop: foreach i in [0:9] { A[i] = i * 2; }
of -> write int A[];
"#;
