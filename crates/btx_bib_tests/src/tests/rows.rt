//! Styles, and a database of the usual entries with what it gives.

/// A style with the fields `title` and `booktitle`, a macro, and the types `misc` and `book`.
pub const STYLE: &[u8] =
    b"ENTRY {title booktitle}{}{} MACRO {jan}{\"January\"} FUNCTION {misc}{} FUNCTION {book}{} READ";

/// A style for the databases that are made of `TEN_ENTRIES`.
pub const USUAL_STYLE: &[u8] =
    b"ENTRY {author title year month booktitle}{}{} MACRO {jan}{\"January\"} MACRO {feb}{\"February\"} FUNCTION {article}{} FUNCTION {inproceedings}{} FUNCTION {proceedings}{} FUNCTION {book}{} FUNCTION {misc}{} FUNCTION {phdthesis}{} FUNCTION {techreport}{} FUNCTION {unpublished}{} FUNCTION {inbook}{} READ";

/// Ten entries, with a number in the place of each `%`: accents, braces and quotes, joined parts, strings of months and others, two
/// children of one parent, a comment, lines that end in a carriage return, and bytes from 128 up.
pub const TEN_ENTRIES: [&[u8]; 10] = [
    b"@article{a%,\r\n  author = {Donald~E. Knuth and {\\'E}mile Zola},\r\n  title = \"The {TeX}book, part %\",\r\n  year = 19%, month = jan # \"~1\"\r\n}\r\n",
    b"@InProceedings{c%, crossref = \"V%\",\n  author = \"J{\\\"o}rg M{\\\"u}ller\",\n  title = {On\n\t  {White}\tspace },}\n",
    b"@string(p% = {Proceedings } # {%})\n@preamble{\"x\"}\n@inproceedings(d%,title=p% # \", again\", crossref={v%})\n",
    b"@comment{ a comment % }\n@proceedings{v%, booktitle = p%, year = {2001} }\n",
    b"@book{b%, title = \"Quotes {\"}in{\"} quotes\", note = \"not declared\"}\n",
    b"text between items, mail me: someone at example.org\n@Misc{m%}\n",
    b"@phdthesis{t%, author={Za\xc5\xbc\xc3\xb3\xc5\x82\xc4\x87 G\xea\xb6l\xb1}, title={}, year=2020}\n",
    b"@techreport{r/%:x_1, title = {A {{very}} {deep} one}, month = feb}\n",
    b"@unpublished{u%, title = \"\" # {a} # \" \" # \"b\" # 1}\n",
    b"@inbook\n{\nK%\n,\ntitle\n=\n{T}\n}\n",
];

/// What they give.
pub const TEN_GIVEN: [&[u8]; 10] = [
    b"a%=-;Donald~E. Knuth and {\\'E}mile Zola;The {TeX}book, part %;19%;January~1;-;\n",
    b"c%=v%;J{\\\"o}rg M{\\\"u}ller;On {White} space;2001;-;Proceedings %;\n",
    b"d%=v%;-;Proceedings %, again;2001;-;Proceedings %;\n",
    b"v%=-;-;-;2001;-;Proceedings %;\n",
    b"b%=-;-;Quotes {\"}in{\"} quotes;-;-;-;\n",
    b"m%=-;-;-;-;-;-;\n",
    b"t%=-;Za\xc5\xbc\xc3\xb3\xc5\x82\xc4\x87 G\xea\xb6l\xb1;;2020;-;-;\n",
    b"r/%:x_1=-;-;A {{very}} {deep} one;-;February;-;\n",
    b"u%=-;-;a b1;-;-;-;\n",
    b"K%=-;-;T;-;-;-;\n",
];
