// The editions by name.
ghost use Rattle.editions.specs.Names.{Named};

// 1 for iso2007, 2 for api, and 0 for any other text. A number and no Option: a rule of the project, since a card names an
// edition by it.
pub fn edition_number(name: &str) -> u8
    ensures { Named name.now result }
{
    match name {
        "iso2007" => 1,
        "api" => 2,
        _ => 0,
    }
}
