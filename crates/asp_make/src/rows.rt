//! The texts of small programs, by the definitions.
ghost use Rattle.std.specs.Prelude.{◌≡◌, codes};
ghost use Rattle.asp_model.specs.Rows.{two_ways, weight_loop};
ghost use Rattle.asp_make.specs.Texts.{text_of};

pub fn each_rule_has_a_line()
    ensures { text_of two_ways ≡ codes "asp 1 0 0\n1 0 1 1 0 1 -2\n1 0 1 2 0 1 -1\n0\n" }
{}

pub fn weights_follow_their_literals()
    ensures { text_of weight_loop ≡ codes "asp 1 0 0\n1 0 1 1 1 2 2 1 2 2 1\n1 1 1 2 0 0\n0\n" }
{}
