//! Rules about words: of other languages, and of this one where a name is required.

/// The rules that come first, as `rules` reads them.
pub static WORD_RULES: &str = r#"
# The output of a function, declared before it without brackets.
when first=$type last=@second ] found=$name next=(
next_second=$type -> write the outputs first, in brackets: (int r) f(int n) { r = n; }
next_second=) next_third={ -> write the outputs first, in brackets: (int r) f(int n) { r = n; }

# A word that begins a statement in another language, unless the script uses it as a name.
when first=$name second!== [ first!=$defined
first=elif elsif elseif found!=@first ->first write else if (x > 0) { .. }
first=parallel async spawn sync fork second={ -> leave the word and its braces out: each statement runs as soon as its values are there
first=from second=io string assert -> write import io;, or nothing: printf and the other functions are there without it
-> $statements first

# Imports.
when last!=$end
last=import -> leave the import out: the modules are io, string and assert, and their functions are there without it
first=import found=, -> import one module at a time: import io; import string;
found=import opener={ ->opener write the import outside of all blocks, before the one that opens

# A function as a value.
when last=auto var let const val def function found=$name next== next_second=(
next_third=$type ) -> write a function outside of all blocks: (int r) f(int n) { r = n + 1; }

# Operators as words, but not a variable of a loop and not a name that begins the next line.
when before_last!=foreach gap!=line comment
found=do begin next={ -> leave the word out: foreach i in [0:9] { .. }
found=$name -> $operators found
last=$name found=$plain $type -> $operators last
when before_last!=foreach gap=line comment next!== [ (
found=$name -> $operators found

# Types of other languages.
when found=$name [
last=$name gap!=line comment ->last $types last
first=( found=$name ->found $types found

# A keyword as a name.
when last!=$end
last=$type found=$keyword -> this is a keyword: choose another name
first=$type first!=@last last=$keyword last!=true false ->last choose another name for the keyword
"#;
