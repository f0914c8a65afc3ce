//! Values and faults of expressions, and the outcomes of items of each kind. The expected values follow from the rules
//! of the language: `%/` cuts toward zero, a left operand's fault is met first, and every operator is strict.

use crate::asserts::is_equal;
use board_work::answer::Answer;
use board_work::evaluation::{evaluate, evaluate_literal};
use board_work::outcome::{ControlResult, EntryFault, Outcome, into_scalar, outcome_of};
use board_work::view_eq::is_same_entry;
use board_work::work::{Done, Work, WorkTask};
use std::alloc::Global;
use std::process::Abort;
use std::sync::Arc;
use task_code::entry::{Act, Entry, Kind, Loop, Name, Owned, Variable};
use task_code::expr::{Expr, Operator};
use values::fault::OpFault;
use values::format::Format;
use values::key::Key;
use values::map::{Element, Map};
use values::op::{Factor, Order, Sign};
use values::text::Text;
use values::value::{Scalar, Value};

const TARGET: Name = Name {
    up: 0,
    owned: Owned::Local(Variable {
        node: 1,
        array: false,
    }),
};

const OVER: Loop = Loop {
    body: 1,
    value: 2,
    turn: None,
};

/// The scalar of a byte: a digit's number, `M` the greatest number, `t` and `f` the truth values.
fn scalar(byte: u8) -> Scalar {
    match byte {
        b'M' => Scalar::Number(i64::MAX),
        b't' => Scalar::Truth(true),
        b'f' => Scalar::Truth(false),
        _ => Scalar::Number(byte.wrapping_sub(b'0') as i64),
    }
}

/// The operator of a byte.
fn operator(rt: &impl Abort, alloc: Global, byte: u8) -> Operator {
    match byte {
        b'+' => Operator::Sum(Vec::from_array(alloc, [Sign::Plus]).expect(rt, "memory")),
        b'-' => Operator::Sum(Vec::from_array(alloc, [Sign::Minus]).expect(rt, "memory")),
        b'*' => Operator::Product(Vec::from_array(alloc, [Factor::Times]).expect(rt, "memory")),
        b'/' => Operator::Product(Vec::from_array(alloc, [Factor::Divide]).expect(rt, "memory")),
        b'<' => Operator::Compare(Order::Less),
        b'&' => Operator::And,
        _ => Operator::Equal,
    }
}

/// The expression of a text in which both operands stand before their operator, `x` and `y` are the first two needs, and
/// each other byte is a scalar.
fn expr(rt: &impl Abort, alloc: Global, text: &[u8]) -> Expr {
    let mut stack = Vec::new(alloc);
    for byte in text {
        let made = match byte {
            b'x' => Expr::Need(0),
            b'y' => Expr::Need(1),
            b'+' | b'-' | b'*' | b'/' | b'<' | b'&' | b'=' => {
                let right = stack.pop().expect(rt, "a right operand");
                let left = stack.pop().expect(rt, "a left operand");
                let operands = Vec::from_array(alloc, [left, right]).expect(rt, "memory");
                Expr::Operation(operator(rt, alloc, *byte), operands)
            }
            _ => Expr::Constant(scalar(*byte)),
        };
        stack.push(made).expect(rt, "memory");
    }
    stack.pop().expect(rt, "an expression")
}

/// The array that has these numbers under the keys from 4 on.
fn array(rt: &impl Abort, alloc: Global, first: i64, second: i64) -> Map {
    let elements = [(4, first), (5, second)].map(|(key, value)| Element {
        key: Key::Number(key),
        value: Scalar::Number(value),
    });
    let elements = Vec::from_array(alloc, elements).expect(rt, "memory");
    Map::new(alloc, elements).expect(rt, "memory")
}

/// A scalar as a text.
fn scalar_text(rt: &impl Abort, alloc: Global, scalar: &Scalar) -> String {
    match scalar {
        Scalar::Number(n) => format!(in alloc; "{n}"),
        Scalar::Truth(b) => format!(in alloc; "{b}"),
        Scalar::Text(text) => String::from_utf8_lossy(alloc, text.as_bytes()),
    }
    .expect(rt, "memory")
}

/// An array's keys and elements as a text.
fn map_text(rt: &impl Abort, alloc: Global, map: &Map) -> String {
    let mut text = String::new(alloc);
    for element in map.elements() {
        let Key::Number(key) = &element.key else {
            continue;
        };
        let value = scalar_text(rt, alloc, &element.value);
        let piece = format!(in alloc; "[{key}]={value}").expect(rt, "memory");
        text.push_str(piece.as_str()).expect(rt, "memory");
    }
    text
}

/// A value or a fault as a text.
fn result_text(rt: &impl Abort, alloc: Global, outcome: &Result<Value, OpFault>) -> String {
    match outcome {
        Ok(Value::One(one)) => scalar_text(rt, alloc, one),
        Ok(Value::Many(map)) => map_text(rt, alloc, map),
        Err(fault) => format!(in alloc; "{fault}").expect(rt, "memory"),
    }
}

/// The result of a control entry, as a text.
fn computed_text(rt: &impl Abort, alloc: Global, computed: &ControlResult) -> String {
    match computed {
        ControlResult::Fails(EntryFault::NoElement) => String::from_str(alloc, "no element"),
        ControlResult::Fails(_) => String::from_str(alloc, "fails"),
        ControlResult::Gives(scalar) => return scalar_text(rt, alloc, scalar),
        ControlResult::Inserts(map) | ControlResult::Goes(map) => return map_text(rt, alloc, map),
        ControlResult::InsertsElement(Key::Number(key), Scalar::Number(value)) => {
            format!(in alloc; "[{key}]={value}")
        }
        ControlResult::InsertsElement(_, _) => String::from_str(alloc, "puts"),
        ControlResult::Takes(branch) => format!(in alloc; "takes {branch}"),
        ControlResult::Counts(range) => format!(in alloc; "{} from {}", range.count, range.low),
        ControlResult::Opens => String::from_str(alloc, "opens"),
    }
    .expect(rt, "memory")
}

/// The outcome of an entry, as a text.
fn outcome_text(rt: &impl Abort, alloc: Global, outcome: &Outcome) -> String {
    match outcome {
        Outcome::Leaf(result) => result_text(rt, alloc, result),
        Outcome::Control(computed) => computed_text(rt, alloc, computed),
    }
}

const EXPRESSIONS: &str = "17 | 752*+
F2 DivideByZero | 10/M1++
F1 Overflow | M1+10/+
F2 DivideByZero | f10/1=&
false | tf&
true | 12<";

/// The value of the expression of a text without needs, as a text.
fn value_text(rt: &impl Abort, alloc: Global, text: &[u8]) -> String {
    let expr = expr(rt, alloc, text);
    let result = evaluate(alloc, &expr, &[]).expect(rt, "memory");
    result_text(rt, alloc, &result)
}

/// A row's expression has the value that stands before it.
fn is_right(rt: &impl Abort, alloc: Global, row: &str) {
    let (wanted, text) = row.split_once(" | ").expect(rt, "a row has two parts");
    let text = value_text(rt, alloc, text.as_bytes());
    assert_eq!(rt; text.as_str(), wanted, "{row}");
}

#[test]
fn expressions(rt: HostRuntime) {
    for row in EXPRESSIONS.lines() {
        is_right(&rt, rt.alloc(), row);
    }
}

/// The expressions of two texts.
fn exprs(rt: &impl Abort, alloc: Global, first: &[u8], second: &[u8]) -> Vec<Expr> {
    let exprs = [expr(rt, alloc, first), expr(rt, alloc, second)];
    Vec::from_array(alloc, exprs).expect(rt, "memory")
}

#[test]
fn a_literal_has_keys_from_0(rt: HostRuntime) {
    let exprs = exprs(&rt, rt.alloc(), b"8", b"x1+");
    let answers = [five()];
    let result = evaluate_literal(rt.alloc(), &exprs, &answers).expect(&rt, "memory");
    let text = result_text(&rt, rt.alloc(), &result);
    is_equal(&rt, text.as_str(), "[0]=8[1]=6");
}

/// The entry that does this.
fn entry(alloc: Global, act: Act) -> Entry {
    Entry {
        node: 1,
        at: 0,
        offset: 0,
        priority: 0,
        needs: Vec::new(alloc),
        act,
        reads: Vec::new(alloc),
        writes: Vec::new(alloc),
    }
}

/// Item 7 with its entry, or without one, computed.
fn done(rt: &impl Abort, job: WorkTask, answers: Vec<Answer>) -> Done {
    match Work::new(7, job, answers).compute() {
        Ok(done) => done,
        Err(_) => panic!(rt; "memory"),
    }
}

/// The job of the entry that does this.
fn job(rt: &impl Abort, alloc: Global, act: Act) -> WorkTask {
    WorkTask::Entry(Arc::new(alloc, entry(alloc, act)).expect(rt, "memory"))
}

/// The outcome has this text.
fn is_outcome(rt: &impl Abort, alloc: Global, outcome: &Outcome, wanted: &str) {
    let text = outcome_text(rt, alloc, outcome);
    is_equal(rt, text.as_str(), wanted);
}

/// An entry with this act has the expected outcome, computed alone.
fn gives(rt: &impl Abort, alloc: Global, act: &Act, answers: &[Answer], wanted: &str) {
    let outcome = outcome_of(alloc, act, answers).expect(rt, "memory");
    is_outcome(rt, alloc, &outcome, wanted);
}

/// The work of an item whose entry has this act has the expected outcome.
fn works(rt: &impl Abort, alloc: Global, act: Act, answers: Vec<Answer>, wanted: &str) {
    let done = done(rt, job(rt, alloc, act), answers);
    is_outcome(rt, alloc, done.outcome(), wanted);
}

/// An entry with this act has the expected outcome, computed alone and as the work of an item.
fn comes_to(rt: &impl Abort, alloc: Global, act: Act, answer: Answer, wanted: &str) {
    let answers = Vec::from_array(alloc, [answer]).expect(rt, "memory");
    gives(rt, alloc, &act, answers.as_slice(), wanted);
    works(rt, alloc, act, answers, wanted);
}

/// The answer for the first need of the tests' entries.
fn five() -> Answer {
    Answer::Found(Scalar::Number(5))
}

#[test]
fn leaf_items(rt: HostRuntime) {
    let alloc = rt.alloc();
    let below = expr(&rt, alloc, b"x2<");
    comes_to(&rt, alloc, Act::Cell(below), five(), "false");
    let sum = expr(&rt, alloc, b"x2+");
    comes_to(&rt, alloc, Act::Set(TARGET, sum), five(), "7");
    let many = Vec::from_array(alloc, [expr(&rt, alloc, b"x")]).expect(&rt, "memory");
    comes_to(&rt, alloc, Act::Fill(TARGET, many), five(), "[0]=5");
}

/// An operator on two operands and a text.
fn with_text(
    rt: &impl Abort,
    alloc: Global,
    operator: Operator,
    first: &[u8],
    text: &[u8],
    last: &[u8],
) -> Expr {
    let text = Text::from_slice(alloc, text).expect(rt, "memory");
    let text = Expr::Constant(Scalar::Text(text));
    let operands = [expr(rt, alloc, first), text, expr(rt, alloc, last)];
    let operands = Vec::from_array(alloc, operands).expect(rt, "memory");
    Expr::Operation(operator, operands)
}

// printf("%i of %s: %i%%", x, "all", 9), where x is 5
#[test]
fn printf_takes_its_arguments_in_order(rt: HostRuntime) {
    let alloc = rt.alloc();
    let format = Format::read(alloc, b"%i of %s: %i%%").expect(&rt, "a format");
    let line = with_text(&rt, alloc, Operator::Printf(format), b"x", b"all", b"9");
    comes_to(&rt, alloc, Act::Print(line), five(), "5 of all: 9%");
}

// assert(x < 2, "m"), where x is 5
#[test]
fn asserts_have_faults(rt: HostRuntime) {
    let alloc = rt.alloc();
    let mut holds = Vec::from_array(alloc, [expr(&rt, alloc, b"x2<")]).expect(&rt, "memory");
    let message = Text::from_slice(alloc, b"m").expect(&rt, "memory");
    holds
        .push(Expr::Constant(Scalar::Text(message)))
        .expect(&rt, "memory");
    let holds = Expr::Operation(Operator::Assert, holds);
    comes_to(&rt, alloc, Act::Assert(holds), five(), "F8 AssertFailed");
}

#[test]
fn control_items(rt: HostRuntime) {
    let alloc = rt.alloc();
    let (one, four) = (expr(&rt, alloc, b"1"), expr(&rt, alloc, b"x1-"));
    let range = Act::Range(one, four, expr(&rt, alloc, b"1"), OVER);
    comes_to(&rt, alloc, range, five(), "4 from 1");
    let branch = Act::If(expr(&rt, alloc, b"x2<"), 1, None);
    comes_to(&rt, alloc, branch, five(), "takes false");
    let put = Act::InsertElement(TARGET, expr(&rt, alloc, b"x"), expr(&rt, alloc, b"4"));
    comes_to(&rt, alloc, put, five(), "[5]=4");
    comes_to(&rt, alloc, Act::Read, five(), "5");
    comes_to(&rt, alloc, Act::Read, Answer::Missing, "no element");
}

#[test]
fn items_over_arrays(rt: HostRuntime) {
    let alloc = rt.alloc();
    let content = Answer::Content(array(&rt, alloc, 1, 2));
    comes_to(&rt, alloc, Act::Copy(TARGET), content, "[4]=1[5]=2");
    let content = Answer::Content(array(&rt, alloc, 1, 2));
    comes_to(&rt, alloc, Act::Each(OVER), content, "[4]=1[5]=2");
    let headers = Vec::new(alloc);
    comes_to(&rt, alloc, Act::Wait(headers, 1), five(), "opens");
}

#[test]
fn the_script_is_opened(rt: HostRuntime) {
    let alloc = rt.alloc();
    let start = Work::new(7, WorkTask::Script, Vec::new(alloc));
    is_equal(&rt, (start.item(), start.kind()), (7, Kind::Control));
    let done = done(&rt, WorkTask::Script, Vec::new(alloc));
    is_equal(
        &rt,
        outcome_text(&rt, alloc, done.outcome()).as_str(),
        "opens",
    );
    is_equal(&rt, (done.item(), done.is_script()), (7, true));
    assert!(rt; done.result().is_none());
}

/// The outcome of an entry that stores the expression's value.
fn stored(rt: &impl Abort, alloc: Global, text: &[u8]) -> Done {
    let act = Act::Set(TARGET, expr(rt, alloc, text));
    let answers = Vec::from_array(alloc, [five()]).expect(rt, "memory");
    done(rt, job(rt, alloc, act), answers)
}

/// The entry that stores the expression's value. It lies in a box, since a test that owns an entry by itself takes long to prove.
fn setting(rt: &impl Abort, alloc: Global, text: &[u8]) -> Box<Entry> {
    let setting = entry(alloc, Act::Set(TARGET, expr(rt, alloc, text)));
    Box::new(alloc, setting).expect(rt, "memory")
}

/// Returns true if the entries are the same that store these expressions' values.
fn are_same(rt: &impl Abort, alloc: Global, text: &[u8], other: &[u8]) -> bool {
    let one = setting(rt, alloc, text);
    let other = setting(rt, alloc, other);
    is_same_entry(&one, &other)
}

#[test]
fn entries_are_compared(rt: HostRuntime) {
    assert!(rt; are_same(&rt, rt.alloc(), b"1x+", b"1x+"));
    assert!(rt; !are_same(&rt, rt.alloc(), b"1x+", b"1x-"));
}

/// Returns true if it is of the entry that stores the expression's value.
fn is_of(rt: &impl Abort, alloc: Global, done: &Done, text: &[u8]) -> bool {
    let other = setting(rt, alloc, text);
    done.is_of(&other)
}

#[test]
fn what_is_done_is_of_its_own_entry(rt: HostRuntime) {
    let alloc = rt.alloc();
    let done = stored(&rt, alloc, b"1x+");
    assert!(rt; is_of(&rt, alloc, &done, b"1x+"));
    assert!(rt; !is_of(&rt, alloc, &done, b"1x-"));
    assert!(rt; !done.is_script());
}

#[test]
fn what_is_done_has_a_result(rt: HostRuntime) {
    let done = stored(&rt, rt.alloc(), b"1x+");
    assert!(rt; matches!(done.result(), Some(Ok(Value::One(Scalar::Number(6))))));
    is_equal(&rt, done.answers().len(), 1);
    assert!(rt; done.into_list().is_empty());
}

/// Returns true if an answer is the array that has these numbers under 4 and 5.
fn is_array(rt: &impl Abort, alloc: Global, answer: &Answer, first: i64, second: i64) -> bool {
    let map = array(rt, alloc, first, second);
    answer.is_content(&map)
}

/// An answer is the array that has 1 and 2 under 4 and 5, and nothing else.
fn is_1_and_2(rt: &impl Abort, alloc: Global, answer: &Answer) {
    assert!(rt; is_array(rt, alloc, answer, 1, 2));
    assert!(rt; !is_array(rt, alloc, answer, 1, 3));
    assert!(rt; !answer.is_missing());
    assert!(rt; !answer.is_found(&Scalar::Number(2)));
}

/// That array, shared with an answer that is let go.
fn shared(rt: &impl Abort, alloc: Global) -> Answer {
    let answer = Answer::Content(array(rt, alloc, 1, 2));
    answer.share().expect(rt, "memory")
}

#[test]
fn answers_are_shared(rt: HostRuntime) {
    let answer = shared(&rt, rt.alloc());
    is_1_and_2(&rt, rt.alloc(), &answer);
}

#[test]
fn answers_are_compared(rt: HostRuntime) {
    assert!(rt; five().is_found(&Scalar::Number(5)));
    assert!(rt; Answer::Missing.is_missing());
}

/// The shared outcome has this text, also where the first one is gone.
fn is_shared(rt: &impl Abort, alloc: Global, outcome: Outcome, wanted: &str) {
    let shared = outcome.share().expect(rt, "memory");
    drop(outcome);
    is_outcome(rt, alloc, &shared, wanted);
}

#[test]
fn outcomes_are_shared(rt: HostRuntime) {
    let alloc = rt.alloc();
    let text = Text::from_slice(alloc, b"all").expect(&rt, "memory");
    is_shared(&rt, alloc, Outcome::Leaf(Ok(Value::from_text(text))), "all");
    is_shared(
        &rt,
        alloc,
        Outcome::Leaf(Err(OpFault::Overflow)),
        "F1 Overflow",
    );
    let over = ControlResult::Goes(array(&rt, alloc, 1, 2));
    is_shared(&rt, alloc, Outcome::Control(over), "[4]=1[5]=2");
    let put = ControlResult::InsertsElement(Key::Number(5), Scalar::Number(4));
    is_shared(&rt, alloc, Outcome::Control(put), "[5]=4");
    is_shared(&rt, alloc, Outcome::Control(ControlResult::Opens), "opens");
}

#[test]
fn a_value_gives_its_scalar(rt: HostRuntime) {
    let number = into_scalar(Value::from_number(7));
    assert!(rt; matches!(number, Scalar::Number(7)));
    let none = into_scalar(Value::Many(array(&rt, rt.alloc(), 1, 2)));
    assert!(rt; matches!(none, Scalar::Number(0)));
}
