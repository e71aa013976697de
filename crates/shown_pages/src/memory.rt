//! Machines for tests, which nobody asks for a page.

use crate::pages::Pages;
use crate::showing::Showing;
use site_memory::machine::MemSite;
use site_model::sure_site::SureSite;

impl Showing for MemSite {
    fn show<P: Pages>(&mut self, pages: &P) {
        let _ = pages;
    }
}

impl Showing for SureSite {
    fn show<P: Pages>(&mut self, pages: &P) {
        let _ = pages;
    }
}
