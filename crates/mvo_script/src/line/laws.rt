ghost use Rattle.mvo_script.specs.line.Same.{TextTellsLine};

/// The law of the texts of lines: no two lines have one text, so what `Line::parse` finds in the
/// text of a line is that line. The call does nothing.
pub fn laws_of_lines()
    ensures one_line { TextTellsLine }
{}
