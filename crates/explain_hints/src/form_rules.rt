//! Rules about the form of a statement: declarations, heads of functions and loops, conditions and blocks.

/// The rules that come after those about words, as `rules` reads them.
pub static FORM_RULES: &str = r#"
# A call without its brackets.
when first=@last gap!=line comment
last=assert found=$plain $value_start -> write assert(x == 7, "x is 7");
last=printf found=$text -> write printf("%s", s);

# Two names, or a name before its type.
when first=$name second=@found gap!=line comment
found=$type -> write the type first: int x = 1;
found=$name next=( -> write f(3); to call a function, and (int r) f(int n) { r = n; } to define one
found=$name -> a type, a = or a ( is missing: int x;, x = y; or f(x);

# After if, wait, foreach and in.
when last=if wait foreach in
last=if -> write the condition in brackets: if (x > 0) { .. }
last=wait next=( -> write wait (A) { .. }, which waits for all of A
last=wait -> write the variables in brackets: wait (x) { .. }
last=foreach found=( -> leave the brackets out: foreach i in [0:9] { .. }
last=foreach found=$type -> leave the type out: foreach i in [0:9] { .. }
last=foreach -> write foreach i in [0:9] { .. }
last=in first!=$type -> foreach goes over a range, as [0:9], or over an array by its name

# The list of a wait, and the rest of the head of a loop.
when last!=if wait foreach in
opener=( opener_before=wait found!={ -> write names of variables: int x = A[0]; wait (x) { .. }
first=foreach third=, third=@before_last found!=, in -> write foreach i in [0:9] { .. }, or foreach v, k in A { .. }
first=foreach second=@before_last last=, -> write foreach v, k in A { .. }
first=foreach second=@last found!=in -> write foreach i in [0:9] { .. }, or foreach v, k in A { .. }
first=foreach before_last=in last=$name found=$arithmetic : -> foreach goes over a range, as [0:9], or over an array by its name

# A block that is missing.
when found!=)
last=else found=( -> write else if (x > 0) { .. }
last=else -> a { is missing: else { .. }
last=) closed=if -> a { is missing: if (x > 0) { .. }
last=) closed=wait -> a { is missing: wait (x) { .. }
first=foreach found=, [ last=] -> a loop goes over one range: foreach i in [0:9] { foreach j in [0:9] { .. } }
first=foreach last=] opener!=( -> a { is missing: foreach i in [0:9] { .. }
first=foreach last=$name before_last=in gap=line comment -> a { is missing: foreach i in [0:9] { .. }
first=foreach last=$name before_last=in found=$name ; $beginning -> a { is missing: foreach i in [0:9] { .. }

# The head of a function.
when found=( first=$type second=@last gap!=line comment
second=main -> leave main and its braces out: a script begins with its first statement
next=$type ) -> write the outputs first, in brackets: (int r) f(int n) { r = n; }
-> write int A[]; for an array, and int x = 3; for a value
when found=$type last=@first outer={
->outer write the function outside of all blocks; a } may be missing for the {
when first=( second=$type opener=(
last=$value_end found=$name $type -> a , or a ) is missing before this
found=$name -> write a type before each name: (int r, int s) f(int n, string t) { .. }
found== -> leave the value out: each call passes one, f(3)
found=; next=$type -> write a , between outputs, and between inputs: (int r, int s) f(int n, int m) { .. }
when first=( second=$type opener!=( [
last=$name -> write the inputs in brackets: (int r) f(int n) { r = n; }
last=) found=; closed=$name -> write the block in place of the ;, or leave this out: a function can be called before it is defined
last=) found!=$closing closed=$name -> write the block right after the inputs: (int r) f(int n) { r = n; }
last=) found={ -> a name and the inputs are missing: (int r) f(int n) { r = n; }
last=) found=( -> a name is missing between outputs and inputs: (int r) f(int n) { r = n; }
last=) found!=$closing -> declare the names before: int x; int y; (x, y) = f(1);
when first=( second!=$type
second=) last=$name found={ -> inputs stand in brackets, also if there are none: () f() { .. }
opener=@first found=$type -> write the type before the name: (int r) f(int n) { r = n; }
opener=@first found=[ -> only names take outputs: int x; int y; (x, y) = f(1); A[0] = x;
opener=@first last=, -> only names take outputs: int x; int y; (x, y) = f(1); A[0] = x;
found=$name last=) gap!=line comment -> write (int r) f(int n) { r = n; } to define a function, and (x, y) = f(1); to call one
when first=$name
found=$type next=$name [ opener=( opener_before=@first -> write the outputs first: (int r) f(int n) { r = n; }, or () f(int n) { .. } without any
found={ last=) closed=@first -> write the outputs first: (int r) f(int n) { r = n; }, or () f(int n) { .. } without any
"#;
