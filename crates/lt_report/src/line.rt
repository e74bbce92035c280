//! Lines, word by word.
ghost use Rattle.lt_model.specs.Report.{line as line_of};
ghost use Rattle.lt_report.specs.Puts.{Puts};
ghost use Rattle.lt_report.specs.Texts.{joined, spaced, texts};

use lt_edges::{Failed, Sink};

/// Writes all of a piece.
pub fn write_all<K: Sink>(sink: &mut K, piece: &[u8]) -> Result<(), Failed>
    ensures { Puts result (K.holds sink.old) (K.holds sink.new) (K.faults sink.old) (K.faults sink.new) piece.now }
{
    let mut rest = piece;
    'rest: while !rest.is_empty() {
        let count = sink.write(rest)?;
        let (_, others) = rest.split_at(count);
        rest = others;
    }
    Ok(())
}

/// Writes a line's word at this place: a space stands before each but the first.
pub fn put_word<K: Sink>(sink: &mut K, place: usize, word: &[u8]) -> Result<(), Failed>
    ensures { Puts result (K.holds sink.old) (K.holds sink.new) (K.faults sink.old) (K.faults sink.new) (spaced place word.now) }
{
    if place == 0 {
        return write_all(sink, word);
    }
    write_all(sink, b" ")?;
    write_all(sink, word)
}

/// Writes the first words of a line.
pub fn put_words<K: Sink>(sink: &mut K, words: &[&[u8]]) -> Result<(), Failed>
    ensures { Puts result (K.holds sink.old) (K.holds sink.new) (K.faults sink.old) (K.faults sink.new) (joined 0 (texts words.now)) }
{
    'words: for (i, word) in words.iter().enumerate() {
        put_word(sink, i, word)?;
    }
    Ok(())
}

/// Writes a line of these words.
pub fn put_line<K: Sink>(sink: &mut K, words: &[&[u8]]) -> Result<(), Failed>
    ensures { Puts result (K.holds sink.old) (K.holds sink.new) (K.faults sink.old) (K.faults sink.new) (line_of (texts words.now)) }
{
    put_words(sink, words)?;
    write_all(sink, b"\n")
}
