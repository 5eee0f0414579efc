//! Laws of frames.

ghost use Rattle.std.specs.Prelude.{◌≡◌, ◌++◌, ◌∷◌, List, ℕ};
ghost use Rattle.cf_base.specs.declared.messages.Reply.{Reply};
ghost use Rattle.cf_base.specs.declared.messages.Request.{Request};
ghost use Rattle.cf_wire.specs.Spelled.{IsReply, IsRequest};

/// A law: a text is the frame of one request or reply at most.
pub fn one_value_a_frame()
    ensures requests { (text : List ℕ) (x y : Request) → IsRequest text x → IsRequest text y → x ≡ y }
    ensures replies { (text : List ℕ) (x y : Reply) → IsReply text x → IsReply text y → x ≡ y }
{}

/// A law: no frame of a request is the front of another, and none of a reply.
pub fn no_frame_in_front()
    ensures requests { (text : List ℕ) (b : ℕ) (rest : List ℕ) (x y : Request) → IsRequest text x → IsRequest (text ++ b ∷ rest) y → ⊥ }
    ensures replies { (text : List ℕ) (b : ℕ) (rest : List ℕ) (x y : Reply) → IsReply text x → IsReply (text ++ b ∷ rest) y → ⊥ }
{}
