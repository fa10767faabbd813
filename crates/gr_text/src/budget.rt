//! How much a search may spend.
ghost use Rattle.std.specs.Bool.{OnTrue, OnFalse};
ghost use Rattle.std.specs.Prelude.{◌≡◌, suc, ◌<◌, ◌↔◌, IsTrue};

/// What a search may still spend, counted in units of that search.
#[derive(Clone, Copy, Debug, PartialEq, Eq)]
pub struct Budget {
    /// How many units are left.
    pub left: u32,
}

impl Budget {
    /// Spends one unit and answers true. Where none is left it answers false, and nothing changes.
    pub fn spend(&mut self) -> bool
        ensures some { IsTrue result ↔ (0 < self.old.left) }
        ensures spent { OnTrue result (self.old.left ≡ suc self.new.left) }
        ensures none { OnFalse result (self.new ≡ self.old) }
    {
        if self.left == 0 {
            return false;
        }
        self.left -= 1;
        true
    }
}

#[cfg(test)]
mod tests {
    use super::*;
    use std::test::Fail;

    #[test]
    fn a_budget_ends(rt: HostRuntime) {
        let mut budget = Budget { left: 2 };
        let answers = [(true, 1), (true, 0), (false, 0), (false, 0)];
        for (spent, left) in answers {
            assert_eq!(rt; budget.spend(), spent);
            assert_eq!(rt; budget.left, left);
        }
    }
}
