// The laws of the subject: the calls of the crates above rest on them.
ghost use Rattle.mtl.specs.Samples.{AllSamples};
ghost use Rattle.mtl.specs.Laws.{Sound, OneRuling, Complete, Listed, Least, Filled, Bytes, Exact, Settling};

// What a certificate claims is true in every continuation, and no line is certified both held and broken at one row.
pub fn certificates_are_true()
    ensures sound { Sound }
    ensures single { OneRuling }
{}

// What is in reach has a certificate.
pub fn reach_is_certified()
    ensures { Complete }
{}

// The executable table of the rules lists exactly what follows, and bytes and nodes are inverse to each other.
pub fn table_and_bytes_agree()
    ensures listed { Listed }
    ensures bytes { Bytes }
{}

// Check's answer accepts exactly the certificates, and a refusal tells the first node and question.
pub fn checking_is_exact()
    ensures { Exact }
{}

// The written certificate is the shortest and the one chosen; its size follows from the sizes of earlier lines.
pub fn shortest_is_written()
    ensures least { Least }
    ensures filled { Filled }
    ensures settling { Settling }
{}

// The worked examples come out as they should: rulings, sizes, bytes, and Check's answers.
pub fn samples_hold()
    ensures { AllSamples }
{}
