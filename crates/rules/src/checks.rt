// Barred entries, and terms that clash.
ghost use Rattle.std.specs.Prelude.{◌≡◌};
ghost use Rattle.rules.specs.Caps.{is_quote, is_ioc};
ghost use Rattle.rules.specs.Checks.{is_barred, terms_clash};

use crate::terms::{Entry, Kind, Order, Term};

impl Kind {
    pub fn is_quote(self) -> bool
        ensures { result ≡ is_quote self }
    {
        matches!(self, Kind::MakerQuote | Kind::SpecialistQuote)
    }
}

impl Term {
    pub fn is_immediate(self) -> bool
        ensures { result ≡ is_ioc self }
    {
        matches!(self, Term::ImmediateOrCancel)
    }
}

impl Entry {
    // An order of this firm, with or without the own-firm mark, may not trade with the entry.
    // Stays asked of firm and mark: the definition asks the same, since the laws over histories know an order by what tapes tell of it.
    pub fn is_barred(&self, firm: u16, mark: bool) -> bool
        ensures { result ≡ is_barred firm mark self.now }
    {
        mark && self.own_firm_mark && self.firm == firm
    }
}

impl Order {
    // A Market Order for the moment, a least size where none may be, or a quote with terms that no quote has.
    pub fn terms_clash(&self) -> bool
        ensures { result ≡ terms_clash self.now }
    {
        let unpriced = self.price.is_none();
        let immediate = self.term.is_immediate();
        let market = unpriced && immediate;
        let least = self.least > 0 && (!immediate || self.least > self.size || self.may_route);
        let quote = self.kind.is_quote()
            && (immediate || unpriced || self.directed.is_some() || self.may_route);
        market || least || quote
    }
}
