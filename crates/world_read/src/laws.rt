//! Laws of reads, each the contract of a function that does nothing.
ghost use Rattle.std.specs.Prelude.{All, ℕ, List, Option, Ok, Result};
ghost use Rattle.byte_view.specs.Cuts.{IsPure};
ghost use Rattle.host_api.specs.declared.refusals.Refusal.{Refusal};
ghost use Rattle.host_replies.specs.Replies.{Answer};
ghost use Rattle.world_read.specs.Reads.{Begins, Failed, FileReading, GoesOnWith, IsRight, IsStage};
ghost use Rattle.world_read.specs.declared.requests.FileRequest.{FileRequest as Request};

/// Whatever chunks a read takes: if none of them differs from a piece of its file that has its name, an answer is the reply over the whole
/// file. If there is no file, the answer is the refusal. Without a fault no such read fails.
pub fn answers_are_right()
    ensures begun { (request : Request) (found : Result (List ℕ) Refusal) (content : Result FileReading Answer)
        → Begins request found content → IsRight request found content }
    ensures next { (request : Request) (file : List ℕ) (old new : FileReading) (taken : Option (List ℕ))
        → IsRight request (Ok file) (Ok old) → GoesOnWith request old taken new
        → IsRight request (Ok file) (Ok new) }
    ensures fails { (request : Request) (file : List ℕ) (chunks : List (List ℕ))
        → IsStage request file chunks Failed → ¬ (All (IsPure file) chunks) }
{}
