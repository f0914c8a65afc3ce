//! Theorems that relate the check to the typing rules.
ghost use Rattle.types.specs.Agrees.{ReferSound, CallSound, OperatorsExact, PrefixesSound};
ghost use Rattle.types.specs.Breaks.{RefusalNames, BreaksNothing};
ghost use Rattle.types.specs.Accepted.{WholeSound, ArgumentsSound, ElementsSound, BuiltinSound, ScriptSound, ScriptTyped, ScriptRefused};

/// Proves that resolved names are right by the typing rules: a variable's name refers to a visible variable, and a
/// called name to a function of the script.
///
/// Both hold for each table that agrees with the recorded entries.
pub fn what_is_settled()
    ensures refers { ReferSound }
    ensures calls { CallSound }
{}

/// Proves that the operators accept and return exactly the types of the typing rules.
pub fn what_operators_give()
    ensures between { OperatorsExact }
    ensures before { PrefixesSound }
{}

/// Proves that a type found for an expression is its type by the typing rules, for each table that agrees with the
/// recorded entries.
///
/// The same holds of accepted arguments, of array elements and of built-in functions.
pub fn what_is_accepted()
    ensures wholes { WholeSound }
    ensures arguments { ArgumentsSound }
    ensures elements { ElementsSound }
    ensures builtins { BuiltinSound }
{}

/// Proves that accepted scripts are well typed and refused ones are not.
///
/// An accepted script is well typed for each table that agrees with the recorded entries. A numbered one is well typed
/// for the table of the last entry of each number. A refused script is well typed for no table.
pub fn what_scripts_are_accepted()
    ensures sound { ScriptSound }
    ensures typed { ScriptTyped }
    ensures refused { ScriptRefused }
{}

/// Proves that a refusal names a rule that the script breaks at that place, and that a well typed script breaks no
/// rule.
pub fn what_refusals_name()
    ensures names { RefusalNames }
    ensures nothing { BreaksNothing }
{}
