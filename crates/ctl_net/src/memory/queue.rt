//! What waits to be handed out, one behind the other.

ghost use Rattle.std.specs.Prelude.{◌≡◌, IfNone, drop, slice_get};

/// Takes out the first that waits.
pub(crate) fn take_front<T>(waiting: &mut Vec<T>) -> Option<T>
    ensures found { result ≡ slice_get waiting.old.items 0 }
    ensures rest { waiting.new.items ≡ drop 1 waiting.old.items }
    ensures none { IfNone result (waiting.new.items ≡ waiting.old.items) }
{
    if waiting.is_empty() {
        return None;
    }
    Some(waiting.remove(0))
}
