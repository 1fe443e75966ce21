//! Laws of the texts of requests and replies.

ghost use Rattle.std.specs.Prelude.{◌≡◌, ◌++◌, ◌<◌, ◌^◌, ◌+◌, ◌*◌, ℕ, List, length, sum_by};
ghost use Rattle.farm_types.specs.declared.ran.Outcome.{Outcome};
ghost use Rattle.farm_types.specs.declared.request.Request.{Request};
ghost use Rattle.farm_types.specs.Fits.{OutcomeFits, RequestFits};
ghost use Rattle.wire_tokens.specs.Laws.{SpellsOnce, FaultsOnce, IsOneOfThree, ShortUpTo};
ghost use Rattle.wire_tokens.specs.Request.{SpellsRequest, request_text, request_format, BeginsRequest};
ghost use Rattle.wire_tokens.specs.Reply.{SpellsReply, reply_text, reply_format, BeginsReply};

/// Each text of a request is read in one way: the laws of the definitions that readers and writers
/// of requests meet. It does nothing.
pub fn one_reading_of_requests()
    // A text begins with at most one spelling, which has one value.
    ensures spellings { SpellsOnce SpellsRequest }

    // What is written is a spelling, and is read again, whatever follows it.
    ensures written { (q : Request) → RequestFits q.words q.source → SpellsRequest (request_text q) q }
    ensures read_again { (q : Request) (more : List ℕ) → RequestFits q.words q.source
        → BeginsRequest (request_text q ++ more) (length (request_text q)) q }

    // A text has at most one fault, and every longer text has it at the same place.
    ensures faults { FaultsOnce request_format }

    // Of a prefix that is a spelling, a fault, and a short text there is exactly one.
    ensures kinds { IsOneOfThree request_format SpellsRequest }

    ensures len { (q : Request) → length (request_text q) ≡ 36 + (12 * length q.words + sum_by length q.words + length q.source) }

    // Every proper prefix of a spelling is short. A short text is shorter than the longest spelling, and may be shorter by only one byte.
    ensures short_texts { ShortUpTo request_format SpellsRequest 34615331 }
{}

/// Each text of a reply is read in one way: the laws of the definitions that readers and writers of
/// replies meet. It does nothing.
pub fn one_reading_of_replies()
    // A text begins with at most one spelling, which has one value.
    ensures spellings { SpellsOnce SpellsReply }

    // What is written is a spelling, and is read again, whatever follows it.
    ensures written { (o : Outcome) → OutcomeFits o.status o.err o.out o.object → o.status < 2 ^ 32 → SpellsReply (reply_text o) o }
    ensures read_again { (o : Outcome) (more : List ℕ) → OutcomeFits o.status o.err o.out o.object → o.status < 2 ^ 32
        → BeginsReply (reply_text o ++ more) (length (reply_text o)) o }

    // A text has at most one fault, and every longer text has it at the same place.
    ensures faults { FaultsOnce reply_format }

    // Of a prefix that is a spelling, a fault, and a short text there is exactly one.
    ensures kinds { IsOneOfThree reply_format SpellsReply }

    ensures len { (o : Outcome) → length (reply_text o) ≡ 60 + (length o.err + length o.out + length o.object) }

    // Every proper prefix of a spelling is short. A short text is shorter than the longest spelling, and may be shorter by only one byte.
    ensures short_texts { ShortUpTo reply_format SpellsReply 35651643 }
{}
