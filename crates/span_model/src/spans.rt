ghost use Rattle.span_model.specs.SpanLaws.{MembersAndSums, SpansGrow, SpansFollow, RowsExchange, RankIsLength, AtMostAsColumns};

/// The empty set, each row, and the symmetric difference of two members are in the span.
pub fn members_and_sums<C>()
    ensures { MembersAndSums C }
{}

/// More rows span no less, and rows from the span no more.
pub fn spans_grow<C>()
    ensures { SpansGrow C }
{}

/// To span is transitive.
pub fn spans_follow<C>()
    ensures { SpansFollow C }
{}

/// The exchange of a row for a set that needs it.
pub fn rows_exchange<C>()
    ensures { RowsExchange C }
{}

/// The rank is the length of any independent list with the same span.
pub fn rank_is_length<C>()
    ensures { RankIsLength C }
{}

/// The rank is at most the number of columns.
pub fn at_most_as_columns()
    ensures { AtMostAsColumns }
{}
