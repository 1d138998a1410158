//! What the definitions of this crate's `specs/` say of small texts, and what follows from them in
//! general. No call does anything: each is proved to meet the laws that its clauses state.
#![tactic(auto, unfolding(crate::specs::Fault::fault_of, crate::specs::Fault::content_fault, crate::specs::Fault::header_fault, crate::specs::Fault::body_fault, crate::specs::Fault::vertex_fault, crate::specs::Fault::pairs_fault, crate::specs::File::header_of, crate::specs::File::line_arcs, crate::specs::Content::content_of, pg_text::specs::Ahead::lines_within, pg_text::specs::Text::lines, pg_text::specs::Text::words, pg_text::specs::Text::number, pg_text::specs::Text::numbers, pg_text::specs::Text::decimal_value))]

ghost use Rattle.std.specs.Prelude.{◌≡◌, Some, None, [], ◌∷◌, true, false, codes, map};
ghost use Rattle.pg_text.specs.Text.{words};
ghost use Rattle.pg_metis.specs.declared.faults.Kind.TheVariants.{NoHeader, HeaderWords, BadNumber, OverLimit, BadFormat, ShortLine, OutOfRange, SelfEdge, Repeated, ZeroWeight, MissingLines, ExtraText, WrongCount, NoMirror, MirrorWeight, TooLong};
ghost use Rattle.pg_metis.specs.Content.{content_of};
ghost use Rattle.pg_metis.specs.File.{FileOf, content_lines, header_of};
ghost use Rattle.pg_metis.specs.Fault.{content_fault, fault_of};
ghost use Rattle.pg_metis.specs.FileLaws.{FaultlessTextsAreFiles, FaultyTextsAreNoFiles, FilesAreOfOneGraph, FilesHaveNoFault};
ghost use Rattle.pg_metis.specs.Examples.{path, path_text, turned_path_text, commented_text, formatted_text, heavy, heavy_text, pair, sized_text, heavy_pair, uncounted_text, remarks_text, lone_word_text, lettered_text, vast_text, misformatted_text, unweighed_text, outside_text, looped_text, repeated_text, weightless_text, short_text, long_text, miscounted_text, unanswered_text, twice_weighed_text, repeated_then_letter_text, vast_then_letter_text, unweighed_and_miscounted_text, short_and_unanswered_text, cut_content, parts_text, idle_rank_text, far_rank_text, rankless_text, two_ranks_text, commented_parts_text};
ghost use Rattle.pg_metis.specs.Parts.{PartsOf, parts_fault_of};
ghost use Rattle.pg_metis.specs.PartsLaws.{FaultlessTextsGiveParts, PartsFilesAreOfOneList, PartsFilesHaveNoFault};
ghost use Rattle.pg_metis.specs.declared.parts_faults.PartsKind.TheVariants.{BadNumber as BadPart, OutOfRange as PartOutOfRange, ExtraText as ExtraPart, MissingLines as MissingParts};

use crate::MAX_FILE_BYTES;

/// A file holds at most 2^29 bytes.
pub fn limits()
    ensures { MAX_FILE_BYTES ≡ 536870912 }
{}

/// Comments are passed over, and are counted among the lines.
pub fn contents()
    ensures lines { content_lines heavy_text ≡
        codes "3 1 011 2" ∷ codes "7 0 2 9" ∷ codes "1 1 1 9" ∷ codes "4 4" ∷ [] }
    ensures numbers { map (λ line. line.number) (content_of heavy_text).lines ≡ 2 ∷ 3 ∷ 5 ∷ 6 ∷ [] }
    ensures count { (content_of heavy_text).count ≡ 6 }
    ensures whole { (content_of heavy_text).overlong ≡ false }
{}

/// A header has n and m, then the format's digits, then the number of weights for each vertex.
pub fn headers()
    ensures two { header_of (words (codes "3 2")) ≡ Some (record {
      n = 3;
      m = 2;
      format = record { sizes = false; vertex_weights = 0; edge_weights = false };
    }) }
    ensures one_digit { header_of (words (codes "3 2 1")) ≡ Some (record {
      n = 3;
      m = 2;
      format = record { sizes = false; vertex_weights = 0; edge_weights = true };
    }) }
    ensures two_digits { header_of (words (codes "3 2 10")) ≡ Some (record {
      n = 3;
      m = 2;
      format = record { sizes = false; vertex_weights = 1; edge_weights = false };
    }) }
    ensures three_digits { header_of (words (codes "3 2 100")) ≡ Some (record {
      n = 3;
      m = 2;
      format = record { sizes = true; vertex_weights = 0; edge_weights = false };
    }) }
    ensures weights { header_of (words (codes "3 2 011 2")) ≡ Some (record {
      n = 3;
      m = 2;
      format = record { sizes = false; vertex_weights = 2; edge_weights = true };
    }) }
    ensures no_weights { header_of (words (codes "3 2 010 0")) ≡ Some (record {
      n = 3;
      m = 2;
      format = record { sizes = false; vertex_weights = 1; edge_weights = false };
    }) }
    ensures ignored { header_of (words (codes "3 2 001 5")) ≡ Some (record {
      n = 3;
      m = 2;
      format = record { sizes = false; vertex_weights = 0; edge_weights = true };
    }) }
{}

/// What is no header.
pub fn no_headers()
    ensures none { header_of [] ≡ None }
    ensures one { header_of (words (codes "3")) ≡ None }
    ensures five { header_of (words (codes "3 2 011 2 0")) ≡ None }
    ensures letter { header_of (words (codes "3 x")) ≡ None }
    ensures digit_two { header_of (words (codes "3 2 2")) ≡ None }
    ensures digit_two_last { header_of (words (codes "3 2 012")) ≡ None }
    ensures four_digits { header_of (words (codes "3 2 0000")) ≡ None }
    ensures ignored_letter { header_of (words (codes "3 2 001 x")) ≡ None }
{}

/// Files of the path: neighbours stand in any order, comments anywhere, and a header may have its format.
pub fn path_files()
    ensures ascending { FileOf path_text path }
    ensures turned { FileOf turned_path_text path }
    ensures commented { FileOf commented_text path }
    ensures formatted { FileOf formatted_text path }
{}

/// Files with weights of vertices and edges, and with sizes.
pub fn weighed_files()
    ensures heavy { FileOf heavy_text heavy }
    ensures sized { FileOf sized_text pair }
    ensures uncounted { FileOf uncounted_text heavy_pair }
{}

/// The faults of headers.
pub fn header_faults()
    ensures empty { fault_of [] ≡ Some (record { line = 1; kind = NoHeader }) }
    ensures remarks { fault_of remarks_text ≡ Some (record { line = 3; kind = NoHeader }) }
    ensures words { fault_of lone_word_text ≡ Some (record { line = 1; kind = HeaderWords }) }
    ensures limit { fault_of vast_text ≡ Some (record { line = 1; kind = OverLimit }) }
    ensures format { fault_of misformatted_text ≡ Some (record { line = 1; kind = BadFormat }) }
{}

/// The faults of the lines after the header.
pub fn line_faults()
    ensures number { fault_of lettered_text ≡ Some (record { line = 3; kind = BadNumber }) }
    ensures short { fault_of unweighed_text ≡ Some (record { line = 3; kind = ShortLine }) }
    ensures range { fault_of outside_text ≡ Some (record { line = 2; kind = OutOfRange }) }
    ensures self_edge { fault_of looped_text ≡ Some (record { line = 2; kind = SelfEdge }) }
    ensures repeated { fault_of repeated_text ≡ Some (record { line = 2; kind = Repeated }) }
    ensures weight { fault_of weightless_text ≡ Some (record { line = 2; kind = ZeroWeight }) }
    ensures missing { fault_of short_text ≡ Some (record { line = 4; kind = MissingLines }) }
    ensures extra { fault_of long_text ≡ Some (record { line = 5; kind = ExtraText }) }
    ensures too_long { content_fault cut_content ≡ Some (record { line = 2; kind = TooLong }) }
{}

/// The faults that the lines of the vertices have only together.
pub fn pair_faults()
    ensures count { fault_of miscounted_text ≡ Some (record { line = 1; kind = WrongCount }) }
    ensures mirror { fault_of unanswered_text ≡ Some (record { line = 3; kind = NoMirror }) }
    ensures weight { fault_of twice_weighed_text ≡ Some (record { line = 2; kind = MirrorWeight }) }
{}

/// Which fault is the first: words go in order, lines before what they lack, and this before their arcs.
pub fn first_faults()
    ensures words { fault_of repeated_then_letter_text ≡ Some (record { line = 2; kind = Repeated }) }
    ensures header_words { fault_of vast_then_letter_text ≡ Some (record { line = 1; kind = OverLimit }) }
    ensures lines { fault_of unweighed_and_miscounted_text ≡ Some (record { line = 2; kind = ShortLine }) }
    ensures end { fault_of short_and_unanswered_text ≡ Some (record { line = 3; kind = MissingLines }) }
{}

/// A text is a file of one graph or has a fault, and never both.
pub fn file_laws()
    ensures one_graph { FilesAreOfOneGraph }
    ensures no_fault { FilesHaveNoFault }
    ensures faultless { FaultlessTextsAreFiles }
    ensures faulty { FaultyTextsAreNoFiles }
{}

/// Partition files, with comments and without, and one of no vertex.
pub fn parts_files()
    ensures two { PartsOf parts_text 2 2 (0 ∷ 1 ∷ []) }
    ensures idle { PartsOf idle_rank_text 4 4 (0 ∷ 1 ∷ 3 ∷ 0 ∷ []) }
    ensures commented { PartsOf commented_parts_text 2 2 (1 ∷ 0 ∷ []) }
    ensures no_vertex { PartsOf [] 0 2 [] }
{}

/// The faults of partition files.
#[tactic(auto, unfolding(crate::specs::Parts::parts_fault_of, crate::specs::Parts::parts_content_fault, crate::specs::Content::content_of, pg_text::specs::Ahead::lines_within, pg_text::specs::Text::lines, pg_text::specs::Text::words, pg_text::specs::Text::decimal_value))]
pub fn part_faults()
    ensures range { parts_fault_of 4 4 far_rank_text ≡ Some (record { line = 3; kind = PartOutOfRange }) }
    ensures no_word { parts_fault_of 4 4 rankless_text ≡ Some (record { line = 2; kind = BadPart }) }
    ensures second_word { parts_fault_of 4 4 two_ranks_text ≡ Some (record { line = 1; kind = ExtraPart }) }
    ensures missing { parts_fault_of 3 2 parts_text ≡ Some (record { line = 3; kind = MissingParts }) }
    ensures extra { parts_fault_of 1 2 parts_text ≡ Some (record { line = 2; kind = ExtraPart }) }
    ensures no_vertex { parts_fault_of 0 2 parts_text ≡ Some (record { line = 1; kind = ExtraPart }) }
{}

/// A text gives one list of ranks or has a fault, and never both.
pub fn parts_laws()
    ensures one_list { PartsFilesAreOfOneList }
    ensures no_fault { PartsFilesHaveNoFault }
    ensures faultless { FaultlessTextsGiveParts }
{}
