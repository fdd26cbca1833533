//! Laws of answers by calls of a house. Each function does nothing: its contract is the law.
ghost use Rattle.std.specs.Prelude.{◌≡◌, ℕ, List, Result, true};
ghost use Rattle.http_wire.specs.Requests.{RequestParts};
ghost use Rattle.host_api.specs.declared.refusals.Refusal.{Refusal};
ghost use Rattle.host_replies.specs.Replies.{Answer, is_head};
ghost use Rattle.host_answers.specs.Answers.{AnswersBy};
ghost use Rattle.host_answers.specs.FileReplies.{IsFileReply};
ghost use Rattle.host_answers.specs.Reads.{ReadsBy};

use crate::houses::House;
use chunk_reads::Holder;

/// Only a reply to HEAD tells a body by its length alone.
pub fn bodies_are_withheld_from_heads_alone<H: House>()
    ensures { (old new : H) (parts : RequestParts) (body : List ℕ) (answer : Answer)
        → AnswersBy H.calls H.gave H.failed old parts body answer new → answer.withheld ≡ true
        → is_head parts ≡ true }
{}

/// The reply to a read of a file is of the file itself, or says that it can't be read; unless a held chunk differs from a piece of the file
/// that has the same digest.
pub fn replies_to_reads_are_of_their_files<H: Holder>()
    ensures { (old new : H) (parts : RequestParts) (path : List ℕ) (found : Result (List ℕ) Refusal)
        (answer : Answer) → ReadsBy H.gave H.failed old parts path found answer new
        → IsFileReply parts path found answer }
{}
