//! The law that ties calls on contexts to scripts.

ghost use Rattle.std.specs.Prelude.{ℕ, List};
ghost use Rattle.scenetext.specs.Scene.{Scene};
ghost use Rattle.scenetext.specs.Spelling.{Spells};
ghost use Rattle.answers.specs.declared.line.Answer.{Answer};
ghost use Rattle.sessions.specs.Calling.{Contexts, AreFresh, AreCalled, HoldWhatIsLeft};

/// Accepted calls on new contexts, of one kind or both, leave what the script leaves that spells them, line by line: the
/// same pixels, counts and answers, and the same image.
pub fn calls_leave_what_their_script_leaves()
    ensures { (text : List ℕ) (scene : Scene) (before after : Contexts) (told : List Answer) → Spells text scene
        → AreFresh scene.size before → AreCalled scene.lines before after told → HoldWhatIsLeft scene told after }
{}
