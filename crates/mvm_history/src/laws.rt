ghost use Rattle.mvm_history.specs.Laws.{EachMerge, FrontStamps, LastPushed, OfferKeeps, OnlyMerge, OrderInWords, OrderedMerge, PushedStamps, ReceiptKeeps, RisingStamps, TookKeeps, WholeMerge};

/// What the merge of histories is: all their entries by stamp, isolate and place, and the one list that has them so. Where no stamp is
/// below one before it, each isolate's entries keep their order.
pub fn order_law()
    ensures whole { WholeMerge }
    ensures ordered { OrderedMerge }
    ensures words { OrderInWords }
    ensures only { OnlyMerge }
    ensures each { EachMerge }
{}

/// The stamps of a history rise. They are as they must be where one entry more has the next stamp, and in a history's beginning.
pub fn stamp_law()
    ensures rising { RisingStamps }
    ensures pushed { PushedStamps }
    ensures front { FrontStamps }
    ensures last { LastPushed }
{}

/// The two sides of a link agree as before where the one offers what the other can receive, where the next Offer is received, and where
/// the next Receipt is taken.
pub fn exchange_law()
    ensures offer { OfferKeeps }
    ensures receipt { ReceiptKeeps }
    ensures took { TookKeeps }
{}
