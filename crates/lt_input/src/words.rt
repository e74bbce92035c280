//! What codes say, in words.

/// What a code says. Those from 1 to 7 are of a text that isn't taken, those from 20 to 26 of an item or a program that
/// does nothing, those from 30 on of a command, those from 40 on are warnings.
pub fn words_of(code: u32) -> &'static str {
    match code {
        1 => "no token begins so: small letters, digits, _ and plain signs alone",
        2 => "not allowed here",
        3 => "a number that doesn't fit into 64 bits",
        4 => "a symbol has 1 to 15 letters, digits and _",
        5 => "a word has 15 bytes at most",
        6 => "too many: 8 columns, 16 variables or literals, 64 statements, 256 programs",
        7 => "the text ends inside an item",
        20 => "no relation of this name",
        21 => "another number of terms than the relation has columns",
        22 => "the kinds don't fit: an int meets a symbol",
        23 => "a variable has no value: it stands in no atom without 'not'",
        24 => "a relation of this name is there",
        25 => "there are 64 relations",
        26 => "no such version",
        30 => "no such command: .help lists them",
        31 => "the command is written otherwise: .help shows how",
        32 => "the file can't be read",
        33 => "the file can't be written",
        34 => "nothing was taken",
        35 => "16 files are being read already",
        36 => "the dump doesn't make this state",
        40 => "its key doesn't decide this value: equal answers are one row, others clash",
        41 => "'not' names a whole row: one with this key and another value may be there",
        42 => "stands once",
        _ => "an unknown code",
    }
}

/// What may be written in place of that of which a code warns, and where the manual shows it.
pub fn cure_of(code: u32) -> &'static str {
    match code {
        40 =>
            "take one row after another (LANGUAGE, How to say it: a count or a total of rows that are there)",
        41 =>
            "for the key alone ask a relation of the keys, or require none (LANGUAGE, Rows that are absent)",
        _ => "where any value will do, let its name begin with _",
    }
}

/// What `.help` writes.
pub const HELP: &str = "\
relation r(sym, int);   relation r(sym -> int);       a declaration; an arrow behind the key
batch program p insert r('a', 1); end; commit;        programs that take effect one after another
show r;   show r at 3;                                the rows of now, or of a version
insert r(x, ..) where ..;   delete r(x, ..) where ..;   replace r(x, ..) by r(y, ..) where ..;
require some ..;   require none ..;   print (x, ..) where ..;     at a terminal also alone
.help                .schema [r]          .workers N           .time on|off
.read FILE           .import FILE r       .export r FILE       .dump [FILE]
.explain STATEMENT; ..                    .forget              .cancel              .quit";
