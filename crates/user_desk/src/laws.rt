//! Laws of openings. Each function computes nothing: its clause is the law.
ghost use Rattle.user_desk.specs.Causes.{OpensOnce, OpensOrNot, OpensUnrefused};
ghost use Rattle.user_desk.specs.Causes.{OpensWhereStands};
ghost use Rattle.user_desk.specs.Joining.{CallsJoin, LivesEndAsOne, LivesReplyAsOne};
ghost use Rattle.user_desk.specs.Joining.{LivesStayHidden, SpansJoin};

/// Whatever bytes a disk has, they open a desk with one history or with none; and those that
/// open one show no reason to refuse them.
pub fn law_openings()
    ensures decided { OpensOrNot }
    ensures once { OpensOnce }
    ensures unrefused { OpensUnrefused }
{}

/// Bytes that stand for a beginning of a legal history within the limits open a desk with it.
pub fn law_beginnings()
    ensures { OpensWhereStands }
{}

/// Lives of the program that follow one another, each over what the one before left, are one run:
/// their replies are its replies, the last leaves the history with which it ends, and that is legal
/// and hides. So are calls over bytes, whatever a crash left between two of them: each is a life
/// with its own events, and what the last left opens a desk with that history. Of calls of any
/// kinds the last history begins with each earlier one.
pub fn law_lives_join()
    ensures replies { LivesReplyAsOne }
    ensures ends { LivesEndAsOne }
    ensures hidden { LivesStayHidden }
    ensures calls { CallsJoin }
    ensures spans { SpansJoin }
{}
