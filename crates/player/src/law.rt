//! The law that ties lines that are played to scripts.

ghost use Rattle.std.specs.Prelude.{ℕ, List};
ghost use Rattle.gfxspec.specs.declared.geometry.Size.{Size};
ghost use Rattle.scenetext.specs.Spelling.{IsTarget};
ghost use Rattle.answers.specs.declared.line.Answer.{Answer};
ghost use Rattle.sessions.specs.Calling.{Contexts, AreFresh};
ghost use Rattle.player.specs.Scripts.{ArePlayed, HoldWhatTheScriptLeaves};

/// Lines that are played one behind the other on new contexts leave what the script leaves that has them behind its
/// target: the same pixels, counts and answers, and the same image.
pub fn lines_leave_what_their_script_leaves()
    ensures { (size : Size) (count : ℕ) (text : List ℕ) (before after : Contexts) (told : List Answer) → IsTarget size
        → AreFresh size before → ArePlayed count text before after told → HoldWhatTheScriptLeaves size text told after }
{}
