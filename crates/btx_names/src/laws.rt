//! Laws over the definitions. Each function has an empty body, and its contract is the law.
ghost use Rattle.std.specs.Prelude.{◌≡◌, ℕ, List, [], ◌∷◌, ◌++◌, ◌+◌, ◌==◌, None, Some, length, map, filter, min, nat_lt, false, not, true};
ghost use Rattle.std.specs.List.{join_by, list_all, list_any};
ghost use Rattle.btx_names.specs.language.VonTokens.{is_von};
ghost use Rattle.btx_names.specs.laws.VonGlyphs.{are_lower};
ghost use Rattle.btx_strings.specs.language.Controls.{glyphs_of};
ghost use Rattle.btx_text.specs.language.Elements.{Element, elements_of};
ghost use Rattle.btx_text.specs.declared.element_kind.Kind.TheVariants.{Special};
ghost use Rattle.btx_text.specs.declared.element_kind.TextMode.{TextMode};
ghost use Rattle.btx_text.specs.declared.element_kind.TextMode.TheVariants.{Bytes};
ghost use Rattle.btx_names.specs.language.NameLists.{names_of};
ghost use Rattle.btx_names.specs.laws.NameLists.{separators_of};
ghost use Rattle.btx_names.specs.laws.Commas.{commas_in, commas_of, final_commas_of};
ghost use Rattle.btx_names.specs.language.NameParts.{ends_in_comma, has_third_comma, is_hyphen, One, before_final, sections_of};
ghost use Rattle.btx_names.specs.laws.NameParts.{HasJrByForm, before_last, final_of, parts_in_order, surname_of, parts_of};
ghost use Rattle.btx_names.specs.laws.Gaps.{and_word_range, byte_gap, pieces_between};
ghost use Rattle.btx_names.specs.language.Formats.{FormatItem, FormatPiece, is_legal, items_of};
ghost use Rattle.btx_names.specs.language.FormattedNames.{finished, period_of, piece_text, tie_of, with_tokens};
ghost use Rattle.btx_names.specs.laws.WrittenFormats.{IsFormatOf, are_items};
ghost use Rattle.btx_names.specs.laws.FormatTexts.{copied_of, in_lower_case, literals_bytes, text_of_items};
ghost use Rattle.btx_names.specs.language.Tokens.{NameToken, tokens_of};
ghost use Rattle.btx_names.specs.laws.Tokens.{breaks_of, is_some_text};
ghost use Rattle.btx_names.specs.laws.VonTokens.{casing};
ghost use Rattle.btx_names.specs.laws.FormattedNames.{shown};
ghost use Rattle.btx_names.specs.laws.WorkedTokens.{other_tokens, von_tokens};

/// A string that isn't empty has one more name than separators.
#[tactic(auto, using(crate::proofs::SeparatorLemmas::counted))]
pub fn one_more_than_separators()
    ensures { (b : ℕ) (bs : List ℕ) → length (names_of (b ∷ bs)) ≡ length (separators_of (b ∷ bs)) + 1 }
{}

/// Names and tokens are pieces: the names of a string that isn't empty are what stands between the separators' letters, and the tokens of a
/// text are what stands, with a byte at least, between the bytes at depth 0 that part tokens.
#[tactic(auto, using(crate::proofs::GapLemmas::between))]
pub fn pieces_between_separators()
    ensures names { (b : ℕ) (bs : List ℕ) →
        names_of (b ∷ bs) ≡ pieces_between 0 (map and_word_range (separators_of (b ∷ bs))) (b ∷ bs) }
    ensures tokens { (text : List ℕ) →
        map (λ token. token.text) (tokens_of text) ≡ filter is_some_text (pieces_between 0 (map byte_gap (breaks_of text)) text) }
{}

/// The parts of a name cover its tokens without overlap, in the order of its form: First von Last; von Last, First; von Last, Jr, First.
#[tactic(auto, using(crate::proofs::LawLemmas::part_laws))]
pub fn parts_cover_the_tokens()
    ensures covers { (name : List ℕ) → parts_in_order (sections_of name) (parts_of name) ≡ tokens_of name }
    ensures jr { (name : List ℕ) → HasJrByForm (sections_of name) (parts_of name) }
{}

/// The final token of the section that von and Last stand in, of the whole name if it has no comma, is the final one of Last. It is never
/// von: von, and First where it stands there too, end among the tokens before it.
#[tactic(auto, using(crate::proofs::LawLemmas::part_laws))]
pub fn final_token_is_last()
    ensures last { (name : List ℕ) → final_of (parts_of name).last ≡ final_of (tokens_of (surname_of (sections_of name))) }
    ensures never_von { (name : List ℕ) (front : List NameToken) (final : NameToken) → tokens_of (surname_of (sections_of name)) ≡ front ++ final ∷ [] →
        (rest : List NameToken) × (front ≡ before_last (sections_of name) (parts_of name) ++ rest) }
{}

/// Von ends in a von token. Where a name has no comma, von begins in one too, and First has none.
#[tactic(auto, using(crate::proofs::VonLawLemmas::von_laws))]
pub fn von_between_von_tokens()
    ensures ends { (name : List ℕ) (front : List NameToken) (final : NameToken) → (parts_of name).von ≡ front ++ final ∷ [] → is_von final.text ≡ true }
    ensures begins { (name : List ℕ) (token : NameToken) (tokens : List NameToken) → sections_of name ≡ One name → (parts_of name).von ≡ token ∷ tokens →
        is_von token.text ≡ true }
    ensures first { (name : List ℕ) → sections_of name ≡ One name → list_all (λ token. not (is_von token.text)) (parts_of name).first ≡ true }
{}

/// In a name without commas, and without a von token before the final one, all tokens of Last but the final one are joined to the next by `-`,
/// and the last token of First isn't: so Last has those that `-` joins to the final token, and no other.
#[tactic(auto, using(crate::proofs::VonLawLemmas::von_laws))]
pub fn hyphens_join_to_last()
    ensures joined { (name : List ℕ) → sections_of name ≡ One name → list_all (λ token. not (is_von token.text)) (before_final (tokens_of name)) ≡ true →
        list_all (λ token. is_hyphen token.joint) (before_final (parts_of name).last) ≡ true }
    ensures apart { (name : List ℕ) (front : List NameToken) (final : NameToken) → sections_of name ≡ One name →
        list_all (λ token. not (is_von token.text)) (before_final (tokens_of name)) ≡ true → (parts_of name).first ≡ front ++ final ∷ [] →
        is_hyphen final.joint ≡ false }
{}

/// What a special character says of von is its first control sequence's, as its glyphs show: a foreign letter by its own case, any other by
/// the first letter after it.
#[tactic(auto, using(crate::proofs::VonGlyphLemmas::special_by_glyphs))]
pub fn first_control_sequence_decides()
    ensures { (token : List ℕ) (left : List Element) (special : Element) (right : List Element) →
        elements_of Bytes token ≡ left ++ special ∷ right → special.kind ≡ Special → casing special ≡ Some (are_lower (glyphs_of special.text)) }
{}

/// How many commas count in a name says its form: without one it is First von Last, with one it is von Last, First, and with two or more it is
/// von Last, Jr, First; of a third one there is a complaint. That a name ends in a comma is complained of exactly where it has a comma at
/// depth 0 that no token follows.
#[tactic(auto, using(crate::proofs::CommaLemmas::comma_laws, crate::proofs::EndingLemmas::ending_by_commas))]
pub fn commas_give_the_form()
    ensures form { (name : List ℕ) → commas_in (sections_of name) ≡ min (length (commas_of name)) 2 }
    ensures third { (name : List ℕ) → has_third_comma (sections_of name) ≡ nat_lt 2 (length (commas_of name)) }
    ensures ending { (name : List ℕ) → ends_in_comma name ≡ nat_lt 0 (length (final_commas_of name)) }
{}

/// A piece with a string between its tokens is what stands before its letter, its tokens joined by that string, in full or abbreviated, and
/// what stands after the letter, finished.
#[tactic(auto, using(crate::proofs::JoinLemmas::tokens_joined))]
pub fn tokens_joined_by_the_string_between()
    ensures { (mode : TextMode) (piece : FormatPiece) (between : List ℕ) (token : NameToken) (tokens : List NameToken) → piece.between ≡ Some between →
        piece_text mode piece (token ∷ tokens)
        ≡ finished mode (piece.before ++ join_by (λ token. shown mode piece.is_full token.text) between (token ∷ tokens) ++ piece.after) }
{}

/// Between two tokens of a piece without a string between stands a period, if they are abbreviated, and a tie: the `~` or `-` of the name; else
/// a `~` before the part's last token and where the piece's text is still short, its beginning and that period included; else a space.
#[tactic(auto, using(crate::proofs::JoinLemmas::tokens_tied))]
pub fn tokens_tied_without_a_string()
    ensures { (mode : TextMode) (piece : FormatPiece) (so_far : List ℕ) (token next : NameToken) (tokens : List NameToken) → piece.between ≡ None →
        let text = so_far ++ shown mode piece.is_full token.text ++ period_of piece.is_full in
        with_tokens mode piece so_far (token ∷ next ∷ tokens)
        ≡ with_tokens mode piece (text ++ tie_of mode text token.joint (length tokens == 0) ∷ []) (next ∷ tokens) }
{}

/// The items of a legal format, written one after another, are the format, but for the case of letters: an item doesn't say in which case
/// the letter stood that names its part. And the literals of any format, legal or not, are its bytes at depth 0
/// that are no brace.
#[tactic(auto, using(crate::proofs::ItemLemmas::format_laws))]
pub fn items_joined_are_the_format()
    ensures written { (format : List ℕ) →
        is_legal format ≡ true → in_lower_case (text_of_items (items_of format)) ≡ in_lower_case format }
    ensures copied { (format : List ℕ) → literals_bytes (items_of format) ≡ copied_of format }
{}

/// Which formats are legal, in the format's own words: literals, groups without a letter at their own level, and pieces with a part's letter,
/// once or twice and in either case, between texts without one. Such items, written one after another, are a legal format, and its items.
#[tactic(auto, using(crate::proofs::WrittenLemmas::written_laws))]
pub fn written_items_are_legal()
    ensures items { (items : List FormatItem) (format : List ℕ) → are_items items ≡ true → IsFormatOf items format → items_of format ≡ items }
    ensures legal { (items : List FormatItem) (format : List ℕ) → are_items items ≡ true → IsFormatOf items format → is_legal format ≡ true }
{}

/// Tokens that are von and tokens that aren't, as they are worked by hand: with each foreign letter, with other control sequences, letters in braces
/// and bytes from 128 up.
pub fn worked_tokens_are_von()
    ensures von { list_all is_von von_tokens ≡ true }
    ensures others { list_any is_von other_tokens ≡ false }
{}
