// The constructions on diagrams, rule by rule, with the records that they request: each function stands for a theorem,
// for every lawful weight kind.
#![tactic(auto)]

ghost use Rattle.requests.specs.Claims.{OneAnswer, SomeAnswer, RequestsSuffice, NarrowGives, MakeGives, JoinGives, ChooseGives, PrefixGives, SequenceGives, NegateGives, StarGives, StarAnswers, CompileGives, CompileAnswers};

// The rules give one diagram and one list of requests, whatever the operands are.
pub fn the_rules_never_disagree()
    ensures { OneAnswer }
{}

// They give some diagram too, with laws of weights or without.
pub fn the_rules_cover_all_operands()
    ensures { SomeAnswer }
{}

// Every record of the diagram that they give is one of an operand or is requested.
pub fn the_requests_suffice()
    ensures { RequestsSuffice }
{}

// From here on: on well-formed operands the rules give what the construction is worked out to,
// and every record that they request is one of a well-formed diagram.
pub fn narrow_by_the_rules()
    ensures { NarrowGives }
{}

pub fn make_by_the_rules()
    ensures { MakeGives }
{}

pub fn join_by_the_rules()
    ensures { JoinGives }
{}

pub fn choose_by_the_rules()
    ensures { ChooseGives }
{}

pub fn prefix_by_the_rules()
    ensures { PrefixGives }
{}

pub fn sequence_by_the_rules()
    ensures { SequenceGives }
{}

pub fn negate_by_the_rules()
    ensures { NegateGives }
{}

// Star ends, and the records of the round that confirms it are requested too.
pub fn star_by_the_rules()
    ensures given { StarGives }
    ensures answered { StarAnswers }
{}

// Every legal policy is compiled.
pub fn compile_by_the_rules()
    ensures given { CompileGives }
    ensures answered { CompileAnswers }
{}
