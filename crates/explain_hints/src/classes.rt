//! Classes of tokens, which the tests of the rules name.

/// Each line is the name of a class and its tokens: a token as it is written, or one of the names `$name`, `$number`,
/// `$text` and `$end` for what has no fixed text.
pub static CLASSES: &str = r#"
$type int string boolean
$form if foreach wait
$beginning int string boolean if foreach wait import
$keyword int string boolean if foreach wait import else in true false
$plain $name $number $text true false
$value_end $name $number $text true false ) ]
$comparison == != < <= > >=
$arithmetic + - * %/ %%
$operator == != < <= > >= + - * %/ %% = && || !
$value_start == != < <= > >= + - * %/ %% = && || ! ( [ ,
$opening ( [ {
$closing ) ] }
$past int string boolean if foreach wait import ; { } = else $end
"#;
