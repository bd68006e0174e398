//! Laws of lines.
ghost use Rattle.al_words.specs.Lines.{IsRefused, LinesAreCommands};

/// Words without a dash that are a line are a command; and words are read as none exactly where
/// they say no line.
pub fn line_laws()
    ensures commands { LinesAreCommands }
    ensures refused { IsRefused }
{}
