//! Machines that show pages.

ghost use Rattle.shown_pages.specs.Quiet.{Quiet};

use crate::pages::Pages;
use site_model::site::Site;

/// A node's machine that may show pages while it waits for a connection. Nothing of what it tells changes by that.
pub trait Showing: Site {
    /// Waits until a connection can be taken, and shows meanwhile these pages to who asks for one, where it shows any.
    fn show<P: Pages>(&mut self, pages: &P)
        ensures { Quiet (Self.told self.old) (Self.told self.new) };
}
