// The rule of every order.
ghost use Rattle.order_rule.specs.Asked.{asked_of};
ghost use Rattle.order_rule.specs.Rule.{IsOrder};

use crate::order::Order;

impl Order {
    /// Every order keeps the rule, however it was made. The call does nothing.
    pub fn keeps_the_rule(&self)
        ensures { IsOrder (asked_of self.now) }
    {
        self.district.has_no_fault();
    }
}
