ghost use Rattle.mvo_places.specs.Laws.{LiveNumbersRise, NoPlaces, PlacesGrow};

/// The laws of places. The numbers of a pair's live records rise. Without pairs there are no
/// places, and the places of one more pair's live records go beside those of the others. The call
/// does nothing.
pub fn laws_of_places()
    ensures live { LiveNumbersRise }
    ensures none { NoPlaces }
    ensures grow { PlacesGrow }
{}
