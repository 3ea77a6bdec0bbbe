//! Laws of what is missed and taken twice, as contracts of functions with an empty body.
ghost use Rattle.wl_delivery.specs.Laws.{OnceEachIsWhole};

/// Law: if each frame of a message is taken once, before it is sent and after the frame before it is, none is missed, and none is taken twice.
pub fn once_each_is_whole()
    ensures { OnceEachIsWhole }
{}
