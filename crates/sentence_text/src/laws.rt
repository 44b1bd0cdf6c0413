//! Laws of the sentence language. Each function computes nothing: its clauses are the law.

ghost use Rattle.sentence_text.specs.Laws.{SentencesRead, TextsMeanOneSentence, TokensAreSlices};
ghost use Rattle.sentence_text.specs.Laws.{CanonicalFormsRead, SentencesAreAscii};

use cqe_base::laws::law_reading;

/// A text that the grammar derives reads as the sentence that it derives, and there is at most one.
pub fn law_sentences_read()
    ensures read { SentencesRead }
    ensures one { TextsMeanOneSentence }
{}

/// The tokens of a text are slices of it, one behind the other, each the longest that begins where
/// it begins.
pub fn law_tokens()
    ensures { TokensAreSlices }
{}

/// A canonical form that isn't too deep reads as the sentence that was printed.
pub fn law_canonical_forms_read()
    ensures { CanonicalFormsRead }
{}

/// The bytes of a sentence are ASCII.
pub fn law_sentences_are_ascii()
    ensures { SentencesAreAscii }
{
    law_reading();
}
