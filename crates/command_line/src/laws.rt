//! Laws of the words, each the contract of a function that does nothing.
ghost use Rattle.std.specs.Prelude.{◌∷◌, ◌++◌, [], None, Option, Some, codes};
ghost use Rattle.clap.specs.Words.{Text};
ghost use Rattle.command_line.specs.CommandLine.{AskForSolo};

/// `solo` takes at most one folder. Without further words, or with `--` alone, it has none; `--store=` gives one, whatever the folder's
/// name. A second folder, or no folder after `--store`, asks for nothing.
pub fn solo_takes_one_folder()
    ensures alone { AskForSolo (codes "solo" ∷ []) None }
    ensures marked { AskForSolo (codes "solo" ∷ codes "--" ∷ []) None }
    ensures given { (folder : Text) → AskForSolo (codes "solo" ∷ (codes "--store=" ++ folder) ∷ []) (Some folder) }
    ensures twice { (a b : Text) (store : Option Text) → ¬ (AskForSolo (codes "solo" ∷ (codes "--store=" ++ a) ∷ (codes "--store=" ++ b) ∷ []) store) }
    ensures bare { (store : Option Text) → ¬ (AskForSolo (codes "solo" ∷ codes "--store" ∷ []) store) }
{}
