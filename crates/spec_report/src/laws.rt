//! Laws of the definitions. Each function is empty: its clauses are the laws.

ghost use Rattle.spec_report.specs.Laws.{NarrowReport, EscapedIsPlain, EscapedIsOne};

/// The report of a sequence of the Simple or the Base profile is that by the rules without the wide profile.
pub fn report_law()
    ensures { NarrowReport }
{}

/// A name or a value of a tag is printed without spaces and ends of lines, and can be told from any other.
pub fn escaped_law()
    ensures plain { EscapedIsPlain }
    ensures one { EscapedIsOne }
{}
