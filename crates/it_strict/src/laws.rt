//! Laws about deliveries that are accepted with nothing found: functions that do nothing and whose
//! contracts hold for all inputs and every panel of checks.
ghost use Rattle.it_strict.specs.StrictLaws.{DeliveredAreProducts, ListsNameTheSame};
ghost use Rattle.it_strict.specs.StrictLaws.{NoncesAreOfOneKey};

/// Where delivered files were made as the owners prescribed, and nothing is found, each delivered
/// file is a product of a step of the layout.
pub fn delivered_are_products()
    ensures { DeliveredAreProducts }
{}

/// Where nothing is found, and neither of the two digest lists is empty, both name the same paths.
pub fn lists_name_the_same()
    ensures { ListsNameTheSame }
{}

/// Where nothing is found, no two different keys signed with one nonce, among all signatures by
/// ECDSA over P-256 that count.
pub fn nonces_are_of_one_key()
    ensures { NoncesAreOfOneKey }
{}
