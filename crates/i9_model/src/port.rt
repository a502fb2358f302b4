//! The port page.
ghost use Rattle.std.specs.Prelude.{◌≡◌};
ghost use Rattle.i9_model.specs.Memory.{in_port_page};

use crate::layout::{PORT_PAGE, PORT_PAGE_SIZE};

/// Whether an address lies in the port page, which is this project's own.
pub fn in_port_page(a: u32) -> bool
    ensures { result ≡ in_port_page a }
{
    PORT_PAGE <= a && a < PORT_PAGE + PORT_PAGE_SIZE
}
