//! Laws of the lines of a journal.

ghost use Rattle.balise_text.specs.Laws.{HeadReadsAsPrinted, PrintsLines, ReadsAsPrinted, UndoneReadsAsPrinted};

/// What is printed for an entry is read as the same entry.
pub fn reads_as_printed()
    ensures { ReadsAsPrinted }
{}

/// What is printed for the first line is read as version 2 and the same next serial.
pub fn head_reads_as_printed()
    ensures { HeadReadsAsPrinted }
{}

/// What is printed for an edit that was undone is read as the same serial.
pub fn undone_reads_as_printed()
    ensures { UndoneReadsAsPrinted }
{}

/// What is printed for each of them is one line.
pub fn prints_lines()
    ensures { PrintsLines }
{}
