// The rows of a sheet that have another number of fields than is expected.
use super::page::Page;
use super::stop::Stop;
use searchers::ascii::AsciiStr;
use sheets::rows::survey_rows;

/// Shows the rows that have another number of fields than is expected, and tells whether there is
/// none.
pub fn show_check<S: AsciiStr>(
    page: &mut Page,
    sheet: &S,
    sep: S,
    fields: Option<usize>,
) -> Result<bool, Stop> {
    let survey = survey_rows(page.heap, sheet, &sep, fields)?;
    let expected = survey.expected;
    for deviant in survey.deviants.iter() {
        let place = deviant.place;
        let content = sheet.get_bytes(place.start..place.end);
        page.deviant(*deviant, expected, &content)?;
    }
    let n = survey.deviants.len();
    page.line("deviating rows ", n, "")?;
    Ok(n == 0)
}
