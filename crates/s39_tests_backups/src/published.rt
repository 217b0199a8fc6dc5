//! The vectors published for SLIP-0039, through `recover` and `drill`, with their mnemonics in both orders.

use crate::expect::equal;
use s39_fixtures::{DRILL, RECOVER, expect_run};
use std::alloc::{AllocError, Global};
use std::process::Abort;
use std::test::Fail;

/// Each of them after an empty line: what comes of its mnemonics with the passphrase `TREZOR`, and the mnemonics, one a
/// line. That is the one quorum that they have and the secret, or a refusal; where their order tells, a second for the
/// other order. The vectors name the cause of a refusal; its number and its text are this program's.
const PUBLISHED: &str = "0.0 bb54aac4b89dc868ba37d9cc21b2cece
duckling enlarge academic academic agency result length solution fridge kidney coal piece deal husband erode duke ajar critical decision keyboard

line 1: 13 bad checksum
duckling enlarge academic academic agency result length solution fridge kidney coal piece deal husband erode duke ajar critical decision kidney

line 1: 14 bad padding
duckling enlarge academic academic email result length solution fridge kidney coal piece deal husband erode duke ajar music cargo fitness

0.0+0.2 b43ceb7e57a0ea8766221624d01b0864
shadow pistol academic always adequate wildlife fancy gross oasis cylinder mustang wrist rescue view short owner flip making coding armed
shadow pistol academic acid actress prayer class unknown daughter sweater depict flip twice unkind craft early superior advocate guest smoking

30 incomplete: 0 of 1 groups
shadow pistol academic always adequate wildlife fancy gross oasis cylinder mustang wrist rescue view short owner flip making coding armed

line 2: 21 other identifier
adequate smoking academic acid debut wine petition glen cluster slow rhyme slow simple epidemic rumor junk tracks treat olympic tolerate
adequate stay academic agency agency formal party ting frequent learn upstairs remember smear leaf damage anatomy ladle market hush corner

line 2: 23 other exponent
peasant leaves academic acid desert exact olympic math alive axle trial tackle drug deny decent smear dominant desert bucket remind
peasant leader academic agency cultural blessing percent network envelope medal junk primary human pumps jacket fragment payroll ticket evoke voice

line 3: 24 other group threshold; line 2: 24 other group threshold
liberty category beard echo animal fawn temple briefing math username various wolf aviation fancy visual holy thunder yelp helpful payment
liberty category beard email beyond should fancy romp founder easel pink holy hairy romp loyalty material victim owner toxic custody
liberty category academic easy being hazard crush diminish oral lizard reaction cluster force dilemma deploy force club veteran expect photo

line 2: 25 other group count
average senior academic leaf broken teacher expect surface hour capture obesity desire negative dynamic dominant pistol mineral mailman iris aide
average senior academic agency curious pants blimp spew clothes slice script dress wrap firm shaft regular slavery negative theater roster

line 1: 15 group threshold above group count
music husband acrobat acid artist finance center either graduate swimming object bike medical clothes station aspect spider maiden bulb welcome
music husband acrobat agency advance hunting bike corner density careful material civil evil tactics remind hawk discuss hobo voice rainbow
music husband beard academic black tricycle clock mayor estimate level photo episode exclude ecology papa source amazing salt verify divorce

line 2: 28 conflicting share 0.2
device stay academic always dive coal antenna adult black exceed stadium herald advance soldier busy dryer daughter evaluate minister laser
device stay academic always dwarf afraid robin gravity crunch adjust soul branch walnut coastal dream costume scholar mortgage mountain pumps

line 2: 27 other member threshold in group 0
hour painting academic academic device formal evoke guitar random modern justice filter withdraw trouble identify mailman insect general cover oven
hour painting academic agency artist again daisy capital beaver fiber much enjoy suitable symbolic identify photo editor romp float echo

51 digest mismatch in group 0
guilt walnut academic acid deliver remove equip listen vampire tactics nylon rhythm failure husband fatigue alive blind enemy teaspoon rebound
guilt walnut academic agency brave hamster hobo declare herd taste alpha slim criminal mild arcade formal romp branch pink ambition

30 incomplete: 1 of 2 groups
eraser senior beard romp adorn nuclear spill corner cradle style ancient family general leader ambition exchange unusual garlic promise voice

30 incomplete: 1 of 2 groups
eraser senior decision scared cargo theory device idea deliver modify curly include pancake both news skin realize vitamins away join
eraser senior decision roster beard treat identify grumpy salt index fake aviation theater cubic bike cause research dragon emphasis counter

30 incomplete: 1 of 2 groups
eraser senior decision shadow artist work morning estate greatest pipeline plan ting petition forget hormone flexible general goat admit surface
eraser senior beard romp adorn nuclear spill corner cradle style ancient family general leader ambition exchange unusual garlic promise voice

2.0+2.2+2.4+3.0+3.4 7c3397a292a5941682d7a4ae2d898d11
eraser senior decision roster beard treat identify grumpy salt index fake aviation theater cubic bike cause research dragon emphasis counter
eraser senior ceramic snake clay various huge numb argue hesitate auction category timber browser greatest hanger petition script leaf pickup
eraser senior ceramic shaft dynamic become junior wrist silver peasant force math alto coal amazing segment yelp velvet image paces
eraser senior ceramic round column hawk trust auction smug shame alive greatest sheriff living perfect corner chest sled fumes adequate
eraser senior decision smug corner ruin rescue cubic angel tackle skin skunk program roster trash rumor slush angel flea amazing

1.0+3.1+3.4 7c3397a292a5941682d7a4ae2d898d11
eraser senior decision smug corner ruin rescue cubic angel tackle skin skunk program roster trash rumor slush angel flea amazing
eraser senior beard romp adorn nuclear spill corner cradle style ancient family general leader ambition exchange unusual garlic promise voice
eraser senior decision scared cargo theory device idea deliver modify curly include pancake both news skin realize vitamins away join

0.0+1.0 7c3397a292a5941682d7a4ae2d898d11
eraser senior beard romp adorn nuclear spill corner cradle style ancient family general leader ambition exchange unusual garlic promise voice
eraser senior acrobat romp bishop medical gesture pumps secret alive ultimate quarter priest subject class dictate spew material endless market

0.0 989baf9dcaad5b10ca33dfd8cc75e42477025dce88ae83e75a230086a0e00e92
theory painting academic academic armed sweater year military elder discuss acne wildlife boring employer fused large satoshi bundle carbon diagnose anatomy hamster leaves tracks paces beyond phantom capital marvel lips brave detect luck

line 1: 13 bad checksum
theory painting academic academic armed sweater year military elder discuss acne wildlife boring employer fused large satoshi bundle carbon diagnose anatomy hamster leaves tracks paces beyond phantom capital marvel lips brave detect lunar

line 1: 14 bad padding
theory painting academic academic campus sweater year military elder discuss acne wildlife boring employer fused large satoshi bundle carbon diagnose anatomy hamster leaves tracks paces beyond phantom capital marvel lips facility obtain sister

0.1+0.2 c938b319067687e990e05e0da0ecce1278f75ff58d9853f19dcaeed5de104aae
humidity disease academic always aluminum jewelry energy woman receiver strategy amuse duckling lying evidence network walnut tactics forget hairy rebound impulse brother survive clothes stadium mailman rival ocean reward venture always armed unwrap
humidity disease academic agency actress jacket gross physics cylinder solution fake mortgage benefit public busy prepare sharp friar change work slow purchase ruler again tricycle involve viral wireless mixture anatomy desert cargo upgrade

30 incomplete: 0 of 1 groups
humidity disease academic always aluminum jewelry energy woman receiver strategy amuse duckling lying evidence network walnut tactics forget hairy rebound impulse brother survive clothes stadium mailman rival ocean reward venture always armed unwrap

line 2: 21 other identifier
smear husband academic acid deadline scene venture distance dive overall parking bracelet elevator justice echo burning oven chest duke nylon
smear isolate academic agency alpha mandate decorate burden recover guard exercise fatal force syndrome fumes thank guest drift dramatic mule

line 2: 23 other exponent
finger trash academic acid average priority dish revenue academic hospital spirit western ocean fact calcium syndrome greatest plan losing dictate
finger traffic academic agency building lilac deny paces subject threaten diploma eclipse window unknown health slim piece dragon focus smirk

line 3: 24 other group threshold; line 2: 24 other group threshold
flavor pink beard echo depart forbid retreat become frost helpful juice unwrap reunion credit math burning spine black capital lair
flavor pink beard email diet teaspoon freshman identify document rebound cricket prune headset loyalty smell emission skin often square rebound
flavor pink academic easy credit cage raisin crazy closet lobe mobile become drink human tactics valuable hand capture sympathy finger

line 2: 25 other group count
column flea academic leaf debut extra surface slow timber husky lawsuit game behavior husky swimming already paper episode tricycle scroll
column flea academic agency blessing garbage party software stadium verify silent umbrella therapy decorate chemical erode dramatic eclipse replace apart

line 1: 15 group threshold above group count
smirk pink acrobat acid auction wireless impulse spine sprinkle fortune clogs elbow guest hush loyalty crush dictate tracks airport talent
smirk pink acrobat agency dwarf emperor ajar organize legs slice harvest plastic dynamic style mobile float bulb health coding credit
smirk pink beard academic alto strategy carve shame language rapids ruin smart location spray training acquire eraser endorse submit peaceful

line 2: 28 conflicting share 0.2
fishing recover academic always device craft trend snapshot gums skin downtown watch device sniff hour clock public maximum garlic born
fishing recover academic always aircraft view software cradle fangs amazing package plastic evaluate intend penalty epidemic anatomy quarter cage apart

line 2: 27 other member threshold in group 0
evoke garden academic academic answer wolf scandal modern warmth station devote emerald market physics surface formal amazing aquatic gesture medical
evoke garden academic agency deal revenue knit reunion decrease magazine flexible company goat repair alarm military facility clogs aide mandate

51 digest mismatch in group 0
river deal academic acid average forbid pistol peanut custody bike class aunt hairy merit valid flexible learn ajar very easel
river deal academic agency camera amuse lungs numb isolate display smear piece traffic worthy year patrol crush fact fancy emission

30 incomplete: 1 of 2 groups
wildlife deal beard romp alcohol space mild usual clothes union nuclear testify course research heat listen task location thank hospital slice smell failure fawn helpful priest ambition average recover lecture process dough stadium

30 incomplete: 1 of 2 groups
wildlife deal decision scared acne fatal snake paces obtain election dryer dominant romp tactics railroad marvel trust helpful flip peanut theory theater photo luck install entrance taxi step oven network dictate intimate listen
wildlife deal decision smug ancestor genuine move huge cubic strategy smell game costume extend swimming false desire fake traffic vegan senior twice timber submit leader payroll fraction apart exact forward pulse tidy install

30 incomplete: 1 of 2 groups
wildlife deal decision shadow analysis adjust bulb skunk muscle mandate obesity total guitar coal gravity carve slim jacket ruin rebuild ancestor numerous hour mortgage require herd maiden public ceiling pecan pickup shadow club
wildlife deal beard romp alcohol space mild usual clothes union nuclear testify course research heat listen task location thank hospital slice smell failure fawn helpful priest ambition average recover lecture process dough stadium

2.0+2.1+2.4+3.1+3.2 5385577c8cfc6c1a8aa0f7f10ecde0a3318493262591e78b8c14c6686167123b
wildlife deal ceramic round aluminum pitch goat racism employer miracle percent math decision episode dramatic editor lily prospect program scene rebuild display sympathy have single mustang junction relate often chemical society wits estate
wildlife deal decision scared acne fatal snake paces obtain election dryer dominant romp tactics railroad marvel trust helpful flip peanut theory theater photo luck install entrance taxi step oven network dictate intimate listen
wildlife deal ceramic scatter argue equip vampire together ruin reject literary rival distance aquatic agency teammate rebound false argue miracle stay again blessing peaceful unknown cover beard acid island language debris industry idle
wildlife deal ceramic snake agree voter main lecture axis kitchen physics arcade velvet spine idea scroll promise platform firm sharp patrol divorce ancestor fantasy forbid goat ajar believe swimming cowboy symbolic plastic spelling
wildlife deal decision shadow analysis adjust bulb skunk muscle mandate obesity total guitar coal gravity carve slim jacket ruin rebuild ancestor numerous hour mortgage require herd maiden public ceiling pecan pickup shadow club

1.0+3.1+3.4 5385577c8cfc6c1a8aa0f7f10ecde0a3318493262591e78b8c14c6686167123b
wildlife deal decision scared acne fatal snake paces obtain election dryer dominant romp tactics railroad marvel trust helpful flip peanut theory theater photo luck install entrance taxi step oven network dictate intimate listen
wildlife deal beard romp alcohol space mild usual clothes union nuclear testify course research heat listen task location thank hospital slice smell failure fawn helpful priest ambition average recover lecture process dough stadium
wildlife deal decision smug ancestor genuine move huge cubic strategy smell game costume extend swimming false desire fake traffic vegan senior twice timber submit leader payroll fraction apart exact forward pulse tidy install

0.0+1.0 5385577c8cfc6c1a8aa0f7f10ecde0a3318493262591e78b8c14c6686167123b
wildlife deal beard romp alcohol space mild usual clothes union nuclear testify course research heat listen task location thank hospital slice smell failure fawn helpful priest ambition average recover lecture process dough stadium
wildlife deal acrobat romp anxiety axis starting require metric flexible geology game drove editor edge screw helpful have huge holy making pitch unknown carve holiday numb glasses survive already tenant adapt goat fangs

0.0+0.7+0.9 ad6f2ad8b59bbbaa01369b9006208d9a
herald flea academic cage avoid space trend estate dryer hairy evoke eyebrow improve airline artwork garlic premium duration prevent oven
herald flea academic client blue skunk class goat luxury deny presence impulse graduate clay join blanket bulge survive dish necklace
herald flea academic acne advance fused brother frozen broken game ranked ajar already believe check install theory angry exercise adult

line 1: 12 19 words make no share
junk necklace academic academic acne isolate join hesitate lunar roster dough calcium chemical ladybug amount mobile glasses verify cylinder

line 1: 12 21 words make no share
fraction necklace academic academic award teammate mouse regular testify coding building member verdict purchase blind camera duration email prepare spirit quarter

0.0 1679b4516e0ee5954351d288a838f45e
testify swimming academic academic column loyalty smear include exotic bedroom exotic wrist lobe cover grief golden smart junior estimate learn

0.0+0.2 48b1a4b80b8c209ad42c33672bdaa428
enemy favorite academic acid cowboy phrase havoc level response walnut budget painting inside trash adjust froth kitchen learn tidy punish
enemy favorite academic always academic sniff script carpet romp kind promise scatter center unfair training emphasis evening belong fake enforce

0.0 8340611602fe91af634a5f4608377b5235fa2d757c51d720c0c7656249a3035f
impulse calcium academic academic alcohol sugar lyrics pajamas column facility finance tension extend space birthday rainbow swimming purple syndrome facility trial warn duration snapshot shadow hormone rhyme public spine counter easy hawk album

0.0+0.2 8dc652d6d6cd370d8c963141f6d79ba440300f25c467302c1d966bff8f62300d
western apart academic always artist resident briefing sugar woman oven coding club ajar merit pecan answer prisoner artist fraction amount desktop mild false necklace muscle photo wealthy alpha category unwrap spew losing making
western apart academic acid answer ancient auction flip image penalty oasis beaver multiple thunder problem switch alive heat inherit superior teaspoon explain blanket pencil numb lend punish endless aunt garlic humidity kidney observe
";

#[derive(Clone, Copy, Debug, PartialEq, Eq)]
enum Command {
    Recover,
    Drill,
}

/// What a command writes and says for this outcome, and its status. A drill names digests that differ in the line of
/// their quorum, in each of these vectors that of members 0 and 1.
fn answer_of(
    alloc: Global,
    command: Command,
    outcome: &str,
) -> Result<(String, String, u8), AllocError> {
    let (first, rest) = outcome.split_once(' ').unwrap_or((outcome, ""));
    let is_recovered = first.contains('.');
    let nothing = String::new(alloc);
    Ok(match command {
        Command::Recover if is_recovered => (format!(in alloc; "{rest}\n")?, nothing, 0),
        Command::Drill if is_recovered => (format!(in alloc; "{outcome}\nend\n")?, nothing, 0),
        Command::Drill if first == "51" => {
            (format!(in alloc; "0.0+0.1 {rest}\nend\n")?, nothing, 1)
        }
        _ => (nothing, format!(in alloc; "shamir: {outcome}\n")?, 1),
    })
}

/// The lines of a text, the last first.
fn turned(alloc: Global, text: &str) -> Result<String, AllocError> {
    let mut all = String::new(alloc);
    for line in text.trim_end().rsplit('\n') {
        all.push_str(line)?;
        all.push('\n')?;
    }
    Ok(all)
}

/// Gives the mnemonics of each vector to a command, in both orders, and compares what comes of them.
fn expect_outcomes(rt: &impl Abort, alloc: Global, command: Command) -> Result<(), Fail> {
    let words = match command {
        Command::Recover => RECOVER,
        Command::Drill => DRILL,
    };
    let mut count = 0u32;
    for vector in PUBLISHED.split("\n\n") {
        let (outcome, mnemonics) = vector.split_once('\n').unwrap_or((vector, ""));
        let (outcome, other) = outcome.split_once("; ").unwrap_or((outcome, outcome));
        let (output, errors, status) = answer_of(alloc, command, outcome)?;
        let wanted = (output.as_str(), errors.as_str(), status);
        expect_run(&words, mnemonics, alloc, wanted)?;
        let (output, errors, status) = answer_of(alloc, command, other)?;
        let wanted = (output.as_str(), errors.as_str(), status);
        let mnemonics = turned(alloc, mnemonics)?;
        expect_run(&words, mnemonics.as_str(), alloc, wanted)?;
        count = count.saturating_add(1);
    }
    equal(rt, count, 45);
    Ok(())
}

#[test]
fn recovers_what_the_vectors_say(rt: HostRuntime) -> Result<(), Fail> {
    expect_outcomes(&rt, rt.alloc(), Command::Recover)
}

#[test]
fn drills_what_the_vectors_say(rt: HostRuntime) -> Result<(), Fail> {
    expect_outcomes(&rt, rt.alloc(), Command::Drill)
}
