// What all units do alike where they are told to abort.
ghost use Rattle.std.specs.Prelude.{◌≡◌, ◌<◌, ℕ, [], ◌∷◌, length, replicate, slice_index};
ghost use Rattle.ff_rec.specs.declared.msg.Msg.TheVariants.{Abort as AbortMsg};

use ff_port::Ports;
use ff_rec::{Msg, Record};

/// Puts Abort on each out.
pub(crate) fn put_aborts<P: Ports<Record>>(ports: &mut P)
    requires none { P.puts ports.old ≡ replicate (length (P.puts ports.old)) [] }
    requires room { (k : ℕ) → k < length (P.puts ports.old)
        → 0 < slice_index (P.rooms ports.old) k }
    ensures puts { P.puts ports.new ≡ replicate (length (P.puts ports.old)) (AbortMsg ∷ []) }
    ensures gots { P.gots ports.new ≡ P.gots ports.old }
    ensures link { P.link ports.new ≡ P.link ports.old }
{
    for k in 0..ports.outs() {
        let _ = ports.try_put(k, Msg::Abort);
    }
}
