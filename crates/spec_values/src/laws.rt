//! Laws of the definitions. Each function is empty: its clauses are the laws.

ghost use Rattle.std.specs.Prelude.{ℕ};
ghost use Rattle.spec_values.specs.Content.{Context};
ghost use Rattle.spec_values.specs.Laws.{IsExactPayload, OneValue, NoPrefix, CanonicalSpells, NeverLonger};

/// Of any bytes exactly one holds, for an OBU of each type: they are its payload, with one content and one tail, or they
/// have one first fault.
pub fn one_payload()
    ensures { (context : Context) → (obu_type : ℕ) → IsExactPayload context obu_type }
{}

/// The spelling of an OBU determines its value, and no spelling is a proper prefix of another.
pub fn one_value()
    ensures value { OneValue }
    ensures prefix { NoPrefix }
{}

/// An OBU that has a spelling has one canonical spelling, and no other is shorter.
pub fn one_canonical()
    ensures spells { CanonicalSpells }
    ensures shortest { NeverLonger }
{}
