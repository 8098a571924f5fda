//! Names: how many, and in the formats that styles use. A row's helper answers whether it holds, and a test asserts that no row is the first
//! wrong one: so no test holds an answer.
use btx_names::{format_name, num_names};
use btx_strings::Complaints;
use btx_text::{Fault, TextMode};
use std::alloc::{AllocError, Global};

const LIMIT: usize = 1_000_000;

// As in the list of references: names in full.
const PLAIN: &str = "{ff~}{vv~}{ll}{, jj}";
// Last names first.
const LAST_FIRST: &str = "{vv~}{ll}{, jj}{, f.}";
// Abbreviated first names.
const ABBREVIATED: &str = "{f.~}{vv~}{ll}{, jj}";
// Last names without anything between them.
const RUN_TOGETHER: &str = "{ll{}}";

// Complaints of a name's number, of a comma at its end, of too many commas, of the format, and of the last three.
const NUMBER: Complaints = Complaints {
    x9: false,
    x10: true,
    x11: false,
    x12: false,
    x13: false,
};

const COMMA: Complaints = Complaints {
    x9: false,
    x10: false,
    x11: true,
    x12: false,
    x13: false,
};

const COMMAS: Complaints = Complaints {
    x9: false,
    x10: false,
    x11: false,
    x12: true,
    x13: false,
};

const FORMAT: Complaints = Complaints {
    x9: false,
    x10: false,
    x11: false,
    x12: false,
    x13: true,
};

const ALL: Complaints = Complaints {
    x9: false,
    x10: false,
    x11: true,
    x12: true,
    x13: true,
};

// Whether a name has this text in a format, and these complaints.
fn has_text(
    alloc: Global,
    (names, number): (&str, i32),
    format: &str,
    text: &str,
    mode: TextMode,
    complaints: Complaints,
) -> bool {
    let name = (names, number);
    has_bytes(alloc, name, format, text.as_bytes(), mode, complaints)
}

// Whether a name has these bytes in a format, and these complaints.
fn has_bytes(
    alloc: Global,
    (names, number): (&str, i32),
    format: &str,
    bytes: &[u8],
    mode: TextMode,
    complaints: Complaints,
) -> bool {
    match format_name(alloc, names.as_bytes(), number, format.as_bytes(), mode) {
        Ok(answer) => answer.text.as_slice() == bytes && answer.complaints == complaints,
        Err(_) => false,
    }
}

// How many names there are; -1 for a text that is longer than a string can be.
fn count(names: &str) -> i32 {
    if names.len() > LIMIT {
        return -1;
    }
    num_names(names.as_bytes())
}

// Lists of names, and how many names they have.
const COUNTS: [(&str, i32); 16] = [
    ("", 0),
    (" ", 1),
    ("A", 1),
    ("A and {B and C} AND D", 3),
    ("A and B and others", 3),
    (" and ", 2),
    ("a and and b", 3),
    ("and b", 1),
    ("a and", 1),
    ("a\tAnD\rb", 2),
    ("a and\nb", 1),
    ("Sanders{ and }Sons", 1),
    ("band and andante", 2),
    ("}} and b", 2),
    ("{ and b", 1),
    ("{\\' and} and b", 2),
];

// The first list that has another number of names; "none" if there is none. A table is handed to the loop over it: a loop over a constant has
// all of its text at each of its steps, and takes long to prove.
fn miscounted<'a>(rows: &[(&'a str, i32)]) -> &'a str {
    for (names, want) in rows {
        if count(names) != *want {
            return names;
        }
    }
    "none"
}

#[test]
fn counts_names(rt: HostRuntime) {
    let names = miscounted(&COUNTS);
    assert!(rt; names == "none", "{names}");
}

// ---- Real names, as databases have them. A line has a list of names, the last of which is asked for, and that name in full, with the last
// name first, with its first names abbreviated, and as its last name run together.

// Names without von and Jr, in either order; with von, and some whose von stands where it is none; of many tokens; with Jr, and some whose Jr
// stands where it is none; with hyphens; with special characters, and accents without the braces that make one; in braces, and lists of
// names; and in UTF-8, where the texts are the same if each byte is a character. A long text stands in a function of its own: else
// all that uses it has it at each step, and takes long to prove.
fn real_lines() -> &'static str {
    r#"Donald E. Knuth | Donald~E. Knuth | Knuth, D.~E. | D.~E. Knuth | Knuth
Knuth, Donald E. | Donald~E. Knuth | Knuth, D.~E. | D.~E. Knuth | Knuth
Leslie Lamport | Leslie Lamport | Lamport, L. | L.~Lamport | Lamport
Noether, Emmy | Emmy Noether | Noether, E. | E.~Noether | Noether
Edsger W. Dijkstra | Edsger~W. Dijkstra | Dijkstra, E.~W. | E.~W. Dijkstra | Dijkstra
A. M. Turing | A.~M. Turing | Turing, A.~M. | A.~M. Turing | Turing
C. A. R. Hoare | C.~A.~R. Hoare | Hoare, C. A.~R. | C.~A.~R. Hoare | Hoare
Hoare, C.A.R. | C.A.R. Hoare | Hoare, C. | C.~Hoare | Hoare
Per Brinch Hansen | Per~Brinch Hansen | Hansen, P.~B. | P.~B. Hansen | Hansen
Brinch Hansen, Per | Per Brinch~Hansen | Brinch~Hansen, P. | P.~Brinch~Hansen | BrinchHansen
Simon Peyton Jones | Simon~Peyton Jones | Jones, S.~P. | S.~P. Jones | Jones
Peyton Jones, Simon L. | Simon~L. Peyton~Jones | Peyton~Jones, S.~L. | S.~L. Peyton~Jones | PeytonJones
Ming Li | Ming Li | Li, M. | M.~Li | Li
Sima Qian | Sima Qian | Qian, S. | S.~Qian | Qian
Ng, Andrew Y. | Andrew~Y. Ng | Ng, A.~Y. | A.~Y. Ng | Ng
Wu, C. F. Jeff | C.~F.~Jeff Wu | Wu, C. F.~J. | C.~F.~J. Wu | Wu
Euclid | Euclid | Euclid | Euclid | Euclid
Gauss, Carl Friedrich | Carl~Friedrich Gauss | Gauss, C.~F. | C.~F. Gauss | Gauss
Johann Carl Friedrich Gauss | Johann Carl~Friedrich Gauss | Gauss, J. C.~F. | J.~C.~F. Gauss | Gauss
Johann~Carl Friedrich Gauss | Johann~Carl~Friedrich Gauss | Gauss, J.~C.~F. | J.~C.~F. Gauss | Gauss
Georg Ferdinand Ludwig Philipp Cantor | Georg Ferdinand Ludwig~Philipp Cantor | Cantor, G. F. L.~P. | G.~F. L.~P. Cantor | Cantor
Ludwig van Beethoven | Ludwig van Beethoven | van Beethoven, L. | L.~van Beethoven | Beethoven
Beethoven, Ludwig van | Ludwig~van Beethoven | Beethoven, L.~v. | L.~v. Beethoven | Beethoven
von Neumann, John | John von Neumann | von Neumann, J. | J.~von Neumann | Neumann
Johann Wolfgang von Goethe | Johann~Wolfgang von Goethe | von Goethe, J.~W. | J.~W. von Goethe | Goethe
Leonardo da Vinci | Leonardo da~Vinci | da~Vinci, L. | L.~da~Vinci | Vinci
Charles de Gaulle | Charles de~Gaulle | de~Gaulle, C. | C.~de~Gaulle | Gaulle
N. G. de Bruijn | N.~G. de~Bruijn | de~Bruijn, N.~G. | N.~G. de~Bruijn | Bruijn
Maarten H. van Emden | Maarten~H. van Emden | van Emden, M.~H. | M.~H. van Emden | Emden
Johannes Diderik van der Waals | Johannes~Diderik van~der Waals | van~der Waals, J.~D. | J.~D. van~der Waals | Waals
Walther von der Vogelweide | Walther von~der Vogelweide | von~der Vogelweide, W. | W.~von~der Vogelweide | Vogelweide
Ludwig Mies van der Rohe | Ludwig~Mies van~der Rohe | van~der Rohe, L.~M. | L.~M. van~der Rohe | Rohe
Mies van der Rohe, Ludwig | Ludwig Mies van~der Rohe | Mies van~der Rohe, L. | L.~Mies van~der Rohe | Rohe
Van de Graaff, Robert J. | Robert~J. Van~de Graaff | Van~de Graaff, R.~J. | R.~J. Van~de Graaff | Graaff
Jean de La Fontaine | Jean de~La~Fontaine | de~La~Fontaine, J. | J.~de~La~Fontaine | LaFontaine
De La Fontaine, Jean | Jean De~La~Fontaine | De~La~Fontaine, J. | J.~De~La~Fontaine | DeLaFontaine
Miguel de Cervantes Saavedra | Miguel de~Cervantes~Saavedra | de~Cervantes~Saavedra, M. | M.~de~Cervantes~Saavedra | CervantesSaavedra
Tom{\'a}s Luis de Victoria | Tom{\'a}s~Luis de~Victoria | de~Victoria, T.~L. | T.~L. de~Victoria | Victoria
Lu{\'\i}s de Cam{\~o}es | Lu{\'\i}s de~Cam{\~o}es | de~Cam{\~o}es, L. | L.~de~Cam{\~o}es | Cam{\~o}es
Jean d'Alembert | Jean d'Alembert | d'Alembert, J. | J.~d'Alembert | d'Alembert
Jean le Rond d'Alembert | Jean le~Rond~d'Alembert | le~Rond~d'Alembert, J. | J.~le~Rond~d'Alembert | Rondd'Alembert
d'Alembert, Jean le Rond | Jean le~Rond d'Alembert | d'Alembert, J. l.~R. | J.~l.~R. d'Alembert | d'Alembert
bell hooks | bell hooks | bell hooks | bell hooks | hooks
e. e. cummings | e.~e. cummings | e.~e. cummings | e.~e. cummings | cummings
de la Vall{\'e}e Poussin, Charles Louis Xavier Joseph | Charles Louis Xavier~Joseph de~la Vall{\'e}e~Poussin | de~la Vall{\'e}e~Poussin, C. L. X.~J. | C.~L. X.~J. de~la Vall{\'e}e~Poussin | Vall{\'e}ePoussin
Charles-Jean {\'E}tienne Gustave Nicolas de la Vall{\'e}e Poussin | Charles-Jean {\'E}tienne Gustave~Nicolas de~la Vall{\'e}e~Poussin | de~la Vall{\'e}e~Poussin, C.-J. {\'E}. G.~N. | C.-J. {\'E}. G.~N. de~la Vall{\'e}e~Poussin | Vall{\'e}ePoussin
Guillaume Fran{\c c}ois Antoine de l'H{\^o}pital | Guillaume Fran{\c c}ois~Antoine de~l'H{\^o}pital | de~l'H{\^o}pital, G. F.~A. | G.~F.~A. de~l'H{\^o}pital | l'H{\^o}pital
al-Khw{\=a}rizm{\=\i}, Mu{\d h}ammad ibn M{\=u}s{\=a} | Mu{\d h}ammad ibn~M{\=u}s{\=a} al~Khw{\=a}rizm{\=\i} | al~Khw{\=a}rizm{\=\i}, M. i.~M. | M.~i.~M. al~Khw{\=a}rizm{\=\i} | Khw{\=a}rizm{\=\i}
{\'A}lvaro N{\'u}{\~n}ez Cabeza de Vaca | {\'A}lvaro N{\'u}{\~n}ez~Cabeza de~Vaca | de~Vaca, {\'A}. N.~C. | {\'A}.~N.~C. de~Vaca | Vaca
Georges-Louis Leclerc, Comte de Buffon | Comte de~Buffon Georges-Louis~Leclerc | Georges-Louis~Leclerc, C. d.~B. | C.~d.~B. Georges-Louis~Leclerc | GeorgesLouisLeclerc
King, Jr, Martin Luther | Martin~Luther King, Jr | King, Jr, M.~L. | M.~L. King, Jr | King
Ford, Jr., Henry | Henry Ford, Jr. | Ford, Jr., H. | H.~Ford, Jr. | Ford
Henry Ford, Jr. | Jr. Henry~Ford | Henry~Ford, J. | J.~Henry~Ford | HenryFord
Brooks, Jr., Frederick P. | Frederick~P. Brooks, Jr. | Brooks, Jr., F.~P. | F.~P. Brooks, Jr. | Brooks
Gates, III, William H. | William~H. Gates, III | Gates, III, W.~H. | W.~H. Gates, III | Gates
du Pont, Jr., William | William du~Pont, Jr. | du~Pont, Jr., W. | W.~du~Pont, Jr. | Pont
Davis Jr., Sammy | Sammy Davis~Jr. | Davis~Jr., S. | S.~Davis~Jr. | DavisJr.
Steele, Jr., Guy L. | Guy~L. Steele, Jr. | Steele, Jr., G.~L. | G.~L. Steele, Jr. | Steele
Guy L. {Steele Jr.} | Guy~L. {Steele Jr.} | {Steele Jr.}, G.~L. | G.~L. {Steele Jr.} | {Steele Jr.}
Guy L. Steele Jr. | Guy L.~Steele Jr. | Jr., G. L.~S. | G.~L.~S. Jr. | Jr.
Oliver Wendell {Holmes, Jr.} | Oliver~Wendell {Holmes, Jr.} | {Holmes, Jr.}, O.~W. | O.~W. {Holmes, Jr.} | {Holmes, Jr.}
Marx, Karl & Engels, Friedrich | Friedrich Marx, Karl &~Engels | Marx, Karl &~Engels, F. | F.~Marx, Karl &~Engels | Marx
Jean-Paul Sartre | Jean-Paul Sartre | Sartre, J.-P. | J.-P. Sartre | Sartre
Ir{\`e}ne Joliot-Curie | Ir{\`e}ne Joliot-Curie | Joliot-Curie, I. | I.~Joliot-Curie | JoliotCurie
{Joliot-Curie}, Fr{\'e}d{\'e}ric | Fr{\'e}d{\'e}ric {Joliot-Curie} | {Joliot-Curie}, F. | F.~{Joliot-Curie} | {Joliot-Curie}
Claude L{\'e}vi-Strauss | Claude L{\'e}vi-Strauss | L{\'e}vi-Strauss, C. | C.~L{\'e}vi-Strauss | L{\'e}viStrauss
Jean-Fran{\c c}ois Champollion | Jean-Fran{\c c}ois Champollion | Champollion, J.-F. | J.-F. Champollion | Champollion
Antoine-Laurent de Lavoisier | Antoine-Laurent de~Lavoisier | de~Lavoisier, A.-L. | A.-L. de~Lavoisier | Lavoisier
Laplace, Pierre-Simon de | Pierre-Simon~de Laplace | Laplace, P.-S.~d. | P.-S.~d. Laplace | Laplace
Jean-Yves Le Boudec | Jean-Yves~Le Boudec | Boudec, J.-Y.~L. | J.-Y.~L. Boudec | Boudec
Swinnerton-Dyer, H. P. F. | H.~P.~F. Swinnerton-Dyer | Swinnerton-Dyer, H. P.~F. | H.~P.~F. Swinnerton-Dyer | SwinnertonDyer
Hoene-Wro{\'n}ski, J{\'o}zef Maria | J{\'o}zef~Maria Hoene-Wro{\'n}ski | Hoene-Wro{\'n}ski, J.~M. | J.~M. Hoene-Wro{\'n}ski | HoeneWro{\'n}ski
Richard von Krafft-Ebing | Richard von Krafft-Ebing | von Krafft-Ebing, R. | R.~von Krafft-Ebing | KrafftEbing
Ibn al-Haytham | Ibn al~Haytham | al~Haytham, I. | I.~al~Haytham | Haytham
Le Roy Ladurie, Emmanuel | Emmanuel Le~Roy~Ladurie | Le~Roy~Ladurie, E. | E.~Le~Roy~Ladurie | LeRoyLadurie
{\'E}. Cartan | {\'E}.~Cartan | Cartan, {\'E}. | {\'E}.~Cartan | Cartan
{\'E}lie Cartan | {\'E}lie Cartan | Cartan, {\'E}. | {\'E}.~Cartan | Cartan
\'Elie Cartan | \'Elie Cartan | Cartan, E. | E.~Cartan | Cartan
\'{E}lie Cartan | \'{E}lie Cartan | \'{E}lie Cartan | \'{E}lie Cartan | Cartan
{\'E}mile Zola | {\'E}mile Zola | Zola, {\'E}. | {\'E}.~Zola | Zola
Ren{\'e} Descartes | Ren{\'e} Descartes | Descartes, R. | R.~Descartes | Descartes
Bo Thid{\'e} | Bo~Thid{\'e} | Thid{\'e}, B. | B.~Thid{\'e} | Thid{\'e}
Paul Erd{\H o}s | Paul Erd{\H o}s | Erd{\H o}s, P. | P.~Erd{\H o}s | Erd{\H o}s
{\O}ystein Ore | {\O}ystein Ore | Ore, {\O}. | {\O}.~Ore | Ore
S{\o}ren Kierkegaard | S{\o}ren Kierkegaard | Kierkegaard, S. | S.~Kierkegaard | Kierkegaard
Kurt G{\"o}del | Kurt G{\"o}del | G{\"o}del, K. | K.~G{\"o}del | G{\"o}del
G{\"o}del, K. | K.~G{\"o}del | G{\"o}del, K. | K.~G{\"o}del | G{\"o}del
G\"{o}del, Kurt | Kurt G\"{o}del | G\"{o}del, K. | K.~G\"{o}del | G\"{o}del
Lo\`eve, Michel | Michel Lo\`eve | Lo\`eve, M. | M.~Lo\`eve | Lo\`eve
Karl Weierstra{\ss} | Karl Weierstra{\ss} | Weierstra{\ss}, K. | K.~Weierstra{\ss} | Weierstra{\ss}
{\L}ukasiewicz, Jan | Jan {\L}ukasiewicz | {\L}ukasiewicz, J. | J.~{\L}ukasiewicz | {\L}ukasiewicz
{\AA}ngstr{\"o}m, Anders Jonas | Anders~Jonas {\AA}ngstr{\"o}m | {\AA}ngstr{\"o}m, A.~J. | A.~J. {\AA}ngstr{\"o}m | {\AA}ngstr{\"o}m
Jaroslav Ne{\v s}et{\v r}il | Jaroslav Ne{\v s}et{\v r}il | Ne{\v s}et{\v r}il, J. | J.~Ne{\v s}et{\v r}il | Ne{\v s}et{\v r}il
{\v C}eby{\v s}ev, Pafnuti{\u\i} L. | Pafnuti{\u\i}~L. {\v C}eby{\v s}ev | {\v C}eby{\v s}ev, P.~L. | P.~L. {\v C}eby{\v s}ev | {\v C}eby{\v s}ev
{\c C}elebi, Evliya | Evliya {\c C}elebi | {\c C}elebi, E. | E.~{\c C}elebi | {\c C}elebi
{\relax Yu}ri Matiyasevich | {\relax Yu}ri Matiyasevich | Matiyasevich, {\relax Yu}. | {\relax Yu}.~Matiyasevich | Matiyasevich
Aleksandr {\relax Ya}. Khinchin | Aleksandr~{\relax Ya}. Khinchin | Khinchin, A.~{\relax Ya}. | A.~{\relax Ya}. Khinchin | Khinchin
Garc{\'\i}a M{\'a}rquez, Gabriel | Gabriel Garc{\'\i}a~M{\'a}rquez | Garc{\'\i}a~M{\'a}rquez, G. | G.~Garc{\'\i}a~M{\'a}rquez | Garc{\'\i}aM{\'a}rquez
Gabriel Garc{\'\i}a M{\'a}rquez | Gabriel~Garc{\'\i}a M{\'a}rquez | M{\'a}rquez, G.~G. | G.~G. M{\'a}rquez | M{\'a}rquez
{Barnes and Noble} | {Barnes and Noble} | {Barnes and Noble} | {Barnes and Noble} | {Barnes and Noble}
{Free Software Foundation} | {Free Software Foundation} | {Free Software Foundation} | {Free Software Foundation} | {Free Software Foundation}
Guido {van Rossum} | Guido {van Rossum} | {van Rossum}, G. | G.~{van Rossum} | {van Rossum}
Per {Martin-L{\"o}f} | Per {Martin-L{\"o}f} | {Martin-L{\"o}f}, P. | P.~{Martin-L{\"o}f} | {Martin-L{\"o}f}
{Simon and Schuster} and {Barnes and Noble} | {Barnes and Noble} | {Barnes and Noble} | {Barnes and Noble} | {Barnes and Noble}
Knuth, Donald E. and others | others | others | others | others
Knuth, Donald E. et al. | Donald E. et~al. Knuth | Knuth, D. E. e.~a. | D.~E. e.~a. Knuth | Knuth
Whitehead, Alfred North and Russell, Bertrand | Bertrand Russell | Russell, B. | B.~Russell | Russell
Abramowitz, Milton AND Stegun, Irene A. | Irene~A. Stegun | Stegun, I.~A. | I.~A. Stegun | Stegun
Aho, Alfred V. and Hopcroft, John E. and Ullman, Jeffrey D. | Jeffrey~D. Ullman | Ullman, J.~D. | J.~D. Ullman | Ullman
Kurt Gödel | Kurt Gödel | Gödel, K. | K.~Gödel | Gödel
Paul Erdős | Paul Erdős | Erdős, P. | P.~Erdős | Erdős
Karel Čapek | Karel Čapek | Čapek, K. | K.~Čapek | Čapek
Søren Kierkegaard | Søren Kierkegaard | Kierkegaard, S. | S.~Kierkegaard | Kierkegaard
Łukasiewicz, Jan | Jan Łukasiewicz | Łukasiewicz, J. | J.~Łukasiewicz | Łukasiewicz
Hans Christian Ørsted | Hans~Christian Ørsted | Ørsted, H.~C. | H.~C. Ørsted | Ørsted
Gabriel García Márquez | Gabriel~García Márquez | Márquez, G.~G. | G.~G. Márquez | Márquez
João Guimarães Rosa | João~Guimarães Rosa | Rosa, J.~G. | J.~G. Rosa | Rosa
Luís de Camões | Luís de~Camões | de~Camões, L. | L.~de~Camões | Camões
Charles-Jean de La Vallée Poussin | Charles-Jean de~La~Vallée~Poussin | de~La~Vallée~Poussin, C.-J. | C.-J. de~La~Vallée~Poussin | LaValléePoussin
Józef Maria Hoene-Wroński | Józef~Maria Hoene-Wroński | Hoene-Wroński, J.~M. | J.~M. Hoene-Wroński | HoeneWroński
José Ortega y Gasset | José~Ortega y~Gasset | y~Gasset, J.~O. | J.~O. y~Gasset | Gasset
Ortega y Gasset, José | José Ortega~y Gasset | Ortega~y Gasset, J. | J.~Ortega~y Gasset | Gasset
Ramón y Cajal, Santiago | Santiago Ramón~y Cajal | Ramón~y Cajal, S. | S.~Ramón~y Cajal | Cajal
Élie Cartan | Élie Cartan | Élie Cartan | Élie Cartan | Cartan
Øystein Ore | Øystein Ore | Øystein Ore | Øystein Ore | Ore
Ödön von Horváth | Ödön~von Horváth | Ödön~von Horváth | Ödön~von Horváth | Horváth"#
}

// Names whose texts depend on UTF-8: an abbreviation or a tie does.
fn lines_of_wide_characters() -> &'static str {
    r#"Cartan, Élie | Élie Cartan | Cartan, É. | É.~Cartan | Cartan
Zola, Émile | Émile Zola | Zola, É. | É.~Zola | Zola
von Horváth, Ödön | Ödön von Horváth | von Horváth, Ö. | Ö.~von Horváth | Horváth
Ōe Kenzaburō | Ōe~Kenzaburō | Ōe~Kenzaburō | Ōe~Kenzaburō | Kenzaburō
华, 罗庚 | 罗庚~华 | 华, 罗. | 罗.~华 | 华
Лев Толстой | Лев Толстой | Толстой, Л. | Л.~Толстой | Толстой"#
}

// Whether the last name of a line's list has the line's texts in the four formats, and no complaint.
fn is_real_name(alloc: Global, line: &str, mode: TextMode) -> bool {
    let mut fields = line.split(" | ");
    let names = fields.next().unwrap_or("");
    let last = count(names);
    for format in [PLAIN, LAST_FIRST, ABBREVIATED, RUN_TOGETHER] {
        let Some(text) = fields.next() else {
            return false;
        };
        if !has_text(alloc, (names, last), format, text, mode, Complaints::NONE) {
            return false;
        }
    }
    fields.next().is_none()
}

// The first line whose name isn't as it says; "none" if there is none.
fn wrong_name<'a>(alloc: Global, lines: &'a str, mode: TextMode) -> &'a str {
    for line in lines.split('\n') {
        if !is_real_name(alloc, line, mode) {
            return line;
        }
    }
    "none"
}

#[test]
fn real_names(rt: HostRuntime) {
    let bytes = wrong_name(rt.alloc(), real_lines(), TextMode::Bytes);
    assert!(rt; bytes == "none", "{bytes}");
    let wide = wrong_name(rt.alloc(), real_lines(), TextMode::Utf8);
    assert!(rt; wide == "none", "{wide}");
    let others = wrong_name(rt.alloc(), lines_of_wide_characters(), TextMode::Utf8);
    assert!(rt; others == "none", "{others}");
}

// ---- No real names, or formats that no style uses: what the rules say of odd ones. A line has a name, a format and a text, each of which
// may be empty or end in a space.

// Names that could be; formats in every form; hyphens, von, ties and braces that are never closed; and commas in braces.
fn odd_lines() -> &'static str {
    r#"|Otto de la Tour|{ff~}{vv~}{ll}{, jj}|Otto de~la Tour|
|jean de la fontaine|{ff~}{vv~}{ll}{, jj}|jean de~la fontaine|
|Jean De La Fontaine|{ff~}{vv~}{ll}{, jj}|Jean De~La Fontaine|
|de La Fontaine, Jean|{ff~}{vv~}{ll}{, jj}|Jean de~La~Fontaine|
|Anna Maria Mayer-Schmidt-Kunz|{ff~}{vv~}{ll}{, jj}|Anna~Maria Mayer-Schmidt-Kunz|
|Anna von Mayer-Kunz|{ff~}{vv~}{ll}{, jj}|Anna von Mayer-Kunz|
|Mayer-von Kunz Anna|{ff~}{vv~}{ll}{, jj}|Mayer von Kunz~Anna|
|Catherine de'Medici Strozzi|{ff~}{vv~}{ll}{, jj}|Catherine de'Medici Strozzi|
|Maria della Rosa Bianca|{ff~}{vv~}{ll}{, jj}|Maria della Rosa~Bianca|
|{\'e}mile Zola|{ff~}{vv~}{ll}{, jj}|{\'e}mile Zola|
|{\ae}sop Fables|{ff~}{vv~}{ll}{, jj}|{\ae}sop Fables|
|{\AE}sop Fables|{f.~}{vv~}{ll}{, jj}|{\AE}.~Fables|
|{de la} Cruz, Maria|{ff~}{vv~}{ll}{, jj}|Maria {de la}~Cruz|
|{\relax van} Dyke, Anna|{ff~}{vv~}{ll}{, jj}|Anna {\relax van}~Dyke|
|A~B~C|{ff~}{vv~}{ll}{, jj}|A~B C|
|Li Wu|{ff~}{vv~}{ll}{, jj}|Li~Wu|
|Åsa Öberg|{ff~}{vv~}{ll}{, jj}|Åsa Öberg|
|Müller, Jürgen|{f.~}{vv~}{ll}{, jj}|J.~Müller|
|D. Knuth|{f.~}{vv~}{ll}{, jj}|D.~Knuth|
|{Ren} {\'E}. Noether|{f.~}{vv~}{ll}{, jj}|R.~{\'E}. Noether|
|{{\'E}x} Y|{f.~}{vv~}{ll}{, jj}|{\'E}.~Y|
|12 34 Knuth|{f.~}{vv~}{ll}{, jj}|.~. Knuth|
|Bob  Smith|{ff~}{vv~}{ll}{, jj}|Bob Smith|
|Smith,, Bob|{ff~}{vv~}{ll}{, jj}|Bob Smith|
|Smith, Jr, John|{ff }{vv }{ll}{, jj}|John Smith, Jr|
|jean de la fontaine|{f. }{vv }{ll}|jean de~la fontaine|
|Simone Lucas-Dubois|{ll{}}|LucasDubois|
| |{ff~}{vv~}{ll}{, jj}||
|-~ -|{ff~}{vv~}{ll}{, jj}||
|{A B|{ff~}{vv~}{ll}{, jj}|{A B|
|}A B|{ff~}{vv~}{ll}{, jj}|}A~B|
|Donald E. Knuth|{vv{ } }{ll{ }}{  ff{ }}{  jj{ }}|Knuth  Donald E.|
|Ludwig van Beethoven|{vv{ } }{ll{ }}{  ff{ }}{  jj{ }}|van Beethoven  Ludwig|
|Ford, Jr, Henry|{vv{ } }{ll{ }}{  ff{ }}{  jj{ }}|Ford  Henry  Jr|
|Jean-Paul Sartre|{vv{ } }{ll{ }}{  ff{ }}{  jj{ }}|Sartre  Jean Paul|
|Charles Louis Xavier Joseph de la Vall{\'e}e Poussin|{vv~}{ll}{, jj}{, f}?|de~la Vall{\'e}e~Poussin, C. L. X.~J?|
|Charles Louis Xavier Joseph de la Vall{\'e}e Poussin|{v{}}{l{}}|dlVP|
|Ludwig van Beethoven|{v{}}{l{}}|vB|
|Jean-Paul Sartre|{f.~}{ll}|J.-P. Sartre|
|D. Knuth|{f.~}{ll}|D.~Knuth|
|{{\'E}x} Y|{f.}|{\'E}.|
|A {\'\i}b C|{vv}|{\'\i}b|
|D. Knuth|{F}{LL}|DKnuth|
|D. Knuth|{fF }{Ll}|D. Knuth|
|D. Knuth|by {ll}, {(--)}|by Knuth, (--)|
|D. Knuth|{...~}{ll}|... Knuth|
|D. Knuth|{~}{ll}|~Knuth|
|D. Knuth|{ll~~}|Knuth~|
|D. Knuth|{ll~~~}|Knuth~~|
|D. E. Knuth|{{\bf x}ff{ }{y}}|{\bf x}D. E.{y}|
|D. Knuth|{{abc}~ll~}|{abc}~Knuth |
|D. Knuth|||
|A B C D|{f{}}|ABC|
|a b C|{vv{{x}}{y}.}|a{x}b{y}.|
|a b C|{vv {x}}|a~b {x}|
|A B C|{\ff}|\A~B|
|A B|{{ff}}{}{{ff}~}{{fff}~}|{ff}{ff}~{fff} |
|A B|~~{jj,}f~|~~f~|
|A -B C|{f}|A.~B|
|A- B C|{f}|A.-B|
|X A- B|{ll}/{ff}|A-B/X|
|-~A B|{ff~}{ll}|A~B|
|{\foo B}b c D|{ff/}{vv/}{ll}|{\foo B}b/c/D|
|{\O}de la X-y z|{ff/}{vv}|{\O}de/la~X-y|
|{\O}de la X-y z|{v}|l.~X.-y|
|{\relax\i B}x Y|{vv}|{\relax\i B}x|
|{\'}{b}1a Y|{ff}/{vv}|{\'}{b}1a/|
|{b}1a Y|{ff}/{vv}|/{b}1a|
|{\oE b}x Y|{vv}|{\oE b}x|
|{\oé B}x Y|{vv}||
|{\ss}A Y|{vv}|{\ss}A|
|{\'E}{\'O} Ab Cd De Ef|{ff}|{\'E}{\'O}~Ab Cd~De|
|A B C D|{{\bf A}{} ff}|{\bf A}{} A B~C|
|A B C D|{{\bf A}{}ff}|{\bf A}{}A~B~C|
|Al B Cd|{ff{~}~}{ll}|Al~B Cd|
|Al B Cd|{ll~}{ff{}~~~}|Cd~AlB~~|
|A {b\'c, d- e|{ll}/{l}|{b\'c, d- e/b|
|A 1{{\'c, d|{l.}|{\'c, d.|
|A 12-{3}|{l}:{l{/}}|.-:/|
|A{,}|{ll}|A{,}|
|A{,|{ll}|A{,|"#
}

// Names with a comma at the end.
const FINAL_COMMAS: &str = r#"|Knuth, Donald,|{ll}|Knuth|
|A, ~-|{ll}|A|
|,,|{ll}||
|A,{,},|{ff}{f} {ll}|{,} A|
|A,} ,|{ff}/{ll}|}/A|"#;

// Names with a third comma.
const THIRD_COMMAS: &str = r#"|Smith, Bob, Jr, III|{ff~}{vv~}{ll}{, jj}|Jr~III Smith, Bob|
|von der, Jr-, ,A~b|{ff }{vv }{ll}{, jj}|A~b von der, Jr|"#;

// Formats that are illegal.
const ILLEGAL_FORMATS: &str = r#"|A, B|{ff{a}{b}c}||
|A, B|{{ff}||
|A|{lll}||
|A|{ll||
|A|ll}||
|A|{x}||
|A|{ll}{x}||
|A|{ll y}||
|A|{ll{}{ }y}||
|A|{é ll}||
|A|{ffll}||"#;

// Texts where a sequence is one character.
const IN_UTF8: &str = r#"|Élie Cartan|{f. }{ll}|Cartan|
|Cartan, Élie|{f. }{ll}|É. Cartan|
|Öé Wu|{ff~}{ll}|Öé~Wu|
|Öéß Wu|{ff~}{ll}|Öéß Wu|
|Wu, 1{Öé}|{f.}|Ö.|
|É-Ö Wu|{f}/{ff~}{ll}|É.-Ö/É-Ö Wu|
|Wu, {\v É}a|{f.}|{\v É}.|
|Wu, {É}{Ö} Ab Cd|{ff}|{É}{Ö}~Ab~Cd|"#;

// Texts where each byte is a character.
const IN_BYTES: &str = r#"|Élie Cartan|{f. }{ll}|Cartan|
|Öé Wu|{ff~}{ll}|Öé Wu|
|Ōe Kenzaburō|{vv~}{ll}|Ōe Kenzaburō|
|Wu, {É}{Ö} Ab Cd|{ff}|{É}{Ö} Ab~Cd|"#;

// A name with other whitespace.
const OTHER_WHITE: &str = "|\tBob\tSmith\t|{ff~}{vv~}{ll}{, jj}|Bob Smith|";
// A name and a format with every complaint but that of the number.
const EVERY_COMPLAINT: &str = "|a, b, c, d,|{ll}}||";

// Whether a line's name has its text in its format, with these complaints.
fn line_holds(alloc: Global, line: &str, mode: TextMode, complaints: Complaints) -> bool {
    let mut fields = line.split('|');
    let before = fields.next() == Some("");
    let name = fields.next().unwrap_or("");
    let format = fields.next().unwrap_or("");
    let text = fields.next().unwrap_or("no text");
    let behind = fields.next() == Some("");
    before
        && behind
        && fields.next().is_none()
        && has_text(alloc, (name, 1), format, text, mode, complaints)
}

// The first line that doesn't hold; "none" if there is none.
fn wrong_line<'a>(
    alloc: Global,
    lines: &'a str,
    mode: TextMode,
    complaints: Complaints,
) -> &'a str {
    for line in lines.split('\n') {
        if !line_holds(alloc, line, mode, complaints) {
            return line;
        }
    }
    "none"
}

const LINES: [(&str, TextMode, Complaints); 7] = [
    (OTHER_WHITE, TextMode::Bytes, Complaints::NONE),
    (FINAL_COMMAS, TextMode::Bytes, COMMA),
    (THIRD_COMMAS, TextMode::Bytes, COMMAS),
    (ILLEGAL_FORMATS, TextMode::Bytes, FORMAT),
    (EVERY_COMPLAINT, TextMode::Bytes, ALL),
    (IN_UTF8, TextMode::Utf8, Complaints::NONE),
    (IN_BYTES, TextMode::Bytes, Complaints::NONE),
];

// The first line of all that doesn't hold; "none" if there is none.
fn wrong_line_of_all<'a>(alloc: Global, tables: &[(&'a str, TextMode, Complaints)]) -> &'a str {
    for (lines, mode, complaints) in tables {
        let line = wrong_line(alloc, lines, *mode, *complaints);
        if line != "none" {
            return line;
        }
    }
    "none"
}

#[test]
fn odd_names_and_formats(rt: HostRuntime) {
    let line = wrong_line_of_all(rt.alloc(), &LINES);
    assert!(rt; line == "none", "{line}");
    let odd = wrong_line(rt.alloc(), odd_lines(), TextMode::Bytes, Complaints::NONE);
    assert!(rt; odd == "none", "{odd}");
}

// A list of names, the number of one, its format and its text, and the complaints.
type Pick = (&'static str, i32, &'static str, &'static str, Complaints);

const PICKED: [Pick; 11] = [
    ("A\nb\rC", 1, PLAIN, "A\nb C", Complaints::NONE),
    (
        "{Barnes} and {Noble}",
        2,
        ABBREVIATED,
        "{Noble}",
        Complaints::NONE,
    ),
    (
        "Knuth, Donald and others",
        2,
        ABBREVIATED,
        "others",
        Complaints::NONE,
    ),
    (
        "A, B and C, D and E, F",
        3,
        ABBREVIATED,
        "F.~E",
        Complaints::NONE,
    ),
    (
        "A, B and C, D and E, F",
        1,
        ABBREVIATED,
        "B.~A",
        Complaints::NONE,
    ),
    ("a and b and", 2, ABBREVIATED, "b~and", Complaints::NONE),
    (" and ", 2, ABBREVIATED, "", Complaints::NONE),
    ("A", 2, ABBREVIATED, "", NUMBER),
    ("A", 0, ABBREVIATED, "", NUMBER),
    ("A", -1, ABBREVIATED, "", NUMBER),
    ("", 1, "{lll}", "", NUMBER),
];

// The number of the first row whose name isn't as it says, which is that of all where each is.
fn first_wrong_pick(alloc: Global, rows: &[Pick]) -> usize {
    for (row, (names, number, format, text, complaints)) in rows.iter().enumerate() {
        if !has_text(
            alloc,
            (names, *number),
            format,
            text,
            TextMode::Bytes,
            *complaints,
        ) {
            return row;
        }
    }
    rows.len()
}

// A text where half of a sequence is left, which is no text in UTF-8.
fn leaves_half(alloc: Global) -> bool {
    let (name, mode) = (("Cartan, Élie", 1), TextMode::Bytes);
    has_bytes(
        alloc,
        name,
        "{f. }{ll}",
        b"\xC3. Cartan",
        mode,
        Complaints::NONE,
    )
}

#[test]
fn picks_a_name(rt: HostRuntime) {
    let row = first_wrong_pick(rt.alloc(), &PICKED);
    assert!(rt; row == 11, "row {row}");
    assert!(rt; leaves_half(rt.alloc()) == true);
}

// ---- Limits.

// How long the text of the first name is in a format, where nothing is complained of; 2^64 - 1 where it would be too long, and 0 otherwise.
fn length_of(alloc: Global, name: &[u8], format: &[u8]) -> usize {
    match format_name(alloc, name, 1, format, TextMode::Bytes) {
        Ok(answer) => {
            if answer.complaints == Complaints::NONE {
                answer.text.len()
            } else {
                0
            }
        }
        Err(fault) => {
            if fault == Fault::StringLimit {
                usize::MAX
            } else {
                0
            }
        }
    }
}

// A text of parts: `front`, `count` times `part`, and `end`.
fn parts(
    alloc: Global,
    front: &str,
    part: &str,
    count: u32,
    end: &str,
) -> Result<String, AllocError> {
    let mut text = String::from_str(alloc, front)?;
    for _part in 0..count {
        text.push_str(part)?;
    }
    text.push_str(end)?;
    Ok(text)
}

// How long the text is of a name of `length` bytes in a format, and of such a literal.
fn length_of_name(alloc: Global, length: usize, format: &[u8]) -> Result<usize, AllocError> {
    let name = vec![in alloc; b'x'; length]?;
    Ok(length_of(alloc, &name, format))
}

fn length_of_literal(alloc: Global, length: usize) -> Result<usize, AllocError> {
    let format = vec![in alloc; b'x'; length]?;
    Ok(length_of(alloc, b"A", &format))
}

// 500,000 first names, with 400,000 bytes between any two of them.
fn far_length(alloc: Global) -> Result<usize, AllocError> {
    let name = parts(alloc, "", "A ", 500_000, "B")?;
    let format = parts(alloc, "{ff{", "-", 400_000, "}}")?;
    Ok(length_of(alloc, name.as_bytes(), format.as_bytes()))
}

// Of two ties one goes; a literal; a name; a name and a byte; a longer literal; a longer name.
#[test]
fn longest_texts(rt: HostRuntime) {
    let over = Ok(usize::MAX);
    assert!(rt; length_of_name(rt.alloc(), LIMIT - 1, b"{ll~~}") == Ok(LIMIT));
    assert!(rt; length_of_literal(rt.alloc(), LIMIT) == Ok(LIMIT));
    assert!(rt; length_of_name(rt.alloc(), LIMIT, b"{ll}") == Ok(LIMIT));
    assert!(rt; length_of_name(rt.alloc(), LIMIT, b"{ll}.") == over);
    assert!(rt; length_of_literal(rt.alloc(), LIMIT + 1) == over);
    assert!(rt; length_of_name(rt.alloc(), LIMIT + 1, b"{ll}") == over);
    assert!(rt; far_length(rt.alloc()) == over);
}

// Whether of `last` names the one before the last but one, the last, and one beyond it are as they are to be.
fn are_last(alloc: Global, names: &str, last: i32) -> bool {
    let (format, mode, none) = ("{f.~}{ll}", TextMode::Bytes, Complaints::NONE);
    let beyond = last.saturating_add(1);
    count(names) == last
        && has_text(alloc, (names, 999), format, "A.~Cd", mode, none)
        && has_text(alloc, (names, last), format, "E.~Gh", mode, none)
        && has_text(alloc, (names, beyond), "{ll}", "", mode, NUMBER)
}

// Whether it is so of a list with `before` names before the last.
fn last_names_hold(alloc: Global, before: u32, last: i32) -> Result<bool, AllocError> {
    let names = parts(alloc, "", "Ab Cd and ", before, "Ef Gh")?;
    Ok(are_last(alloc, &names, last))
}

#[test]
fn a_thousand_names_and_one(rt: HostRuntime) {
    assert!(rt; last_names_hold(rt.alloc(), 999, 1000) == Ok(true));
    assert!(rt; last_names_hold(rt.alloc(), 1000, 1001) == Ok(true));
}

// Whether a name of 2,000 first names has such a text in a format: from the second up to the 1,998th they stand apart.
fn thousands_hold(
    alloc: Global,
    format: &str,
    first: &str,
    part: &str,
    end: &str,
) -> Result<bool, AllocError> {
    let name = parts(alloc, "", "Ab ", 2000, "Cd")?;
    let text = parts(alloc, first, part, 1997, end)?;
    let mode = TextMode::Bytes;
    Ok(has_text(alloc, (&name, 1), format, &text, mode, Complaints::NONE))
}

// In full, and abbreviated.
#[test]
fn thousands_of_bytes(rt: HostRuntime) {
    let in_full = thousands_hold(rt.alloc(), "{ff~}{ll}", "Ab~", "Ab ", "Ab~Ab Cd");
    assert!(rt; in_full == Ok(true));
    let abbreviated = thousands_hold(rt.alloc(), "{f.~}{ll}", "A.~", "A. ", "A.~A. Cd");
    assert!(rt; abbreviated == Ok(true));
}
