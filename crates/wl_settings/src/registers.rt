//! What the registers of controllers hold.
ghost use Rattle.std.specs.Prelude.{◌≡◌, min};
ghost use Rattle.wl_settings.specs.Registers.{bounds_of_kind, widest_bounds, with_jump};

use crate::asked::Bounds;
use crate::parts::Parts;
use wl_kinds::ControllerKind;

/// Returns the widest bounds of registers that hold PROP_SEG and PHASE_SEG1 as one length: of each as much as a plan allows.
pub(crate) fn widest_bounds() -> Bounds
    ensures { result ≡ widest_bounds }
{
    Bounds {
        prescaler: 1024,
        parts: Parts::Joint {
            tseg1: 256,
            tseg2: 128,
        },
        sjw: 128,
        is_sjw_free: false,
        kind: None,
    }
}

/// Returns a number of quanta, and for one that no register holds the greatest.
fn quanta(n: u64) -> u16
    ensures { result ≡ min n 65535 }
{
    n.min(u16::MAX as u64) as u16
}

/// Returns what controllers of a kind can be set to.
pub fn bounds_of_kind(kind: ControllerKind) -> Bounds
    ensures { result ≡ bounds_of_kind kind }
{
    Bounds {
        prescaler: kind.prescaler.most.min(u32::MAX as u64) as u32,
        parts: Parts::Joint {
            tseg1: quanta(kind.tseg1.most),
            tseg2: quanta(kind.tseg2.most),
        },
        sjw: quanta(kind.sjw.most),
        is_sjw_free: false,
        kind: Some(kind),
    }
}

/// Returns bounds with a jump width of at most this number of quanta.
pub(crate) fn with_jump(bounds: Bounds, most: u32) -> Bounds
    ensures { result ≡ with_jump bounds most }
{
    Bounds {
        prescaler: bounds.prescaler,
        parts: bounds.parts,
        sjw: bounds.sjw.min(quanta(most as u64)),
        is_sjw_free: bounds.is_sjw_free,
        kind: bounds.kind,
    }
}
