//! Logical lines, and what is written of them.

/// The length of a line; a logical line, what of it is sure while it is pending, and the lines that come of it, each as `texts::text_of` takes it.
pub type Row = (u32, &'static [u8], &'static [u8], &'static [u8]);

/// The lines by hand from the rules.
pub const ROWS: [Row; 19] = [
    // Whitespace directly after a full line breaks it.
    (79, b"79a b", b"79a\n", b"79a\n  b\n"),
    // The whole run of whitespace after a longer one goes.
    (79, b"80a  b", b"80a\n", b"80a\n  b\n"),
    // Of the whitespace after a full line one byte goes.
    (79, b"79a  b", b"79a\n", b"79a\n   b\n"),
    // A line that can't be broken is sure from its beginning.
    (79, b"aaa 80b", b"aaa\n  80b", b"aaa\n  80b\n"),
    // An empty line is written, whitespace alone isn't.
    (79, b"", b"", b"\n"),
    (79, b" ", b"", b""),
    (79, b"80 ", b"", b""),
    (20, b"20a b", b"20a\n", b"20a\n  b\n"),
    (20, b"21a  b", b"21a\n", b"21a\n  b\n"),
    (20, b"5a 5b 5c 5d", b"5a 5b 5c\n", b"5a 5b 5c\n  5d\n"),
    // A full line isn't broken, and nothing of it is sure; of one byte more all is.
    (80, b"80a", b"", b"80a\n"),
    (80, b"81a", b"81a", b"81a\n"),
    // Whitespace at index 2 is no break, at index 3 it is one.
    (20, b"aa 20b", b"aa 20b", b"aa 20b\n"),
    (20, b"aaa\t20b", b"aaa\n  20b", b"aaa\n  20b\n"),
    // A head of whitespace alone isn't written, and the two spaces of the next line count.
    (20, b"5 20b", b"  20b", b"  20b\n"),
    // A head loses all the whitespace at its end.
    (20, b"4a4 13b\r\r\r", b"4a\n", b"4a\n  13b\n"),
    // A line that ends with its break writes nothing more.
    (20, b"21a \t ", b"21a\n", b"21a\n"),
    // The longest lines.
    (1_000, b"1000a b", b"1000a\n", b"1000a\n  b\n"),
    (1_000, b"1001a  b", b"1001a\n", b"1001a\n  b\n"),
];
