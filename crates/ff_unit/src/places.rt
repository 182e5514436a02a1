// Places that hold something at few steps.
ghost use Rattle.std.specs.Prelude.{◌≡◌, None};

/// What stands there, which is taken out. An empty place is only looked at: `Option::take` writes its whole room, and most
/// steps find most places empty.
#[inline(always)]
pub fn take_out<T>(place: &mut Option<T>) -> Option<T>
    ensures value { result ≡ place.old }
    ensures after { place.new ≡ None }
{
    if place.is_none() {
        return None;
    }
    place.take()
}
