//! Laws of queries: the text of a query is read as that query, and a query that was read has its own words. Each
//! function is a law: it does nothing, and its contract says it.

ghost use Rattle.std.specs.Prelude.{◌≡◌, ℕ, List, Some};
ghost use Rattle.std.specs.List.{join_with_byte};
ghost use Rattle.dn_model.specs.Query.{Question};
ghost use Rattle.dn_formats.specs.QueryLaw.{IsWritable};
ghost use Rattle.dn_formats.specs.QueryWords.{query_in, query_text};
ghost use Rattle.dn_formats.specs.ScriptText.{words_of};

/// The text of a query, read by its words, is that query.
#[tactic(auto, using(crate::proofs::QueryLemmas::printed_queries))]
pub fn printed_queries_are_read()
    ensures { (query : Question) → IsWritable query → query_in (words_of (query_text query)) ≡ Some query }
{}

/// A query that a line's words ask is printed as these words, joined by one space.
#[tactic(auto, using(crate::proofs::QueryLemmas::read_queries))]
pub fn read_queries_are_printed()
    ensures { (line : List ℕ) (query : Question) → query_in (words_of line) ≡ Some query
        → query_text query ≡ join_with_byte 32 (words_of line) }
{}
