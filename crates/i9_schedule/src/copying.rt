//! Copies of events.
ghost use Rattle.std.specs.Prelude.{◌≡◌};

use arrayvec::ArrayVec;
use i9_model::Event;

/// The bytes of a feed.
type Fed = ArrayVec<u8, 16>;

/// The same bytes.
fn copied_bytes(bytes: &Fed) -> Fed
    ensures { result.items ≡ bytes.now.items }
{
    let mut copy = ArrayVec::new();
    let _ = copy.try_extend_from_slice(bytes.as_slice());
    copy
}

/// The same event, which takes no memory.
pub fn copied(event: &Event) -> Event
    ensures { result ≡ event.now }
{
    match event {
        Event::Pin(pin) => Event::Pin(*pin),
        Event::Low(pin) => Event::Low(*pin),
        Event::High(pin) => Event::High(*pin),
        Event::Nmi => Event::Nmi,
        Event::Dma(channel) => Event::Dma(*channel),
        Event::Feed(channel, bytes) => Event::Feed(*channel, copied_bytes(bytes)),
        Event::Show(address, length) => Event::Show(*address, *length),
    }
}
