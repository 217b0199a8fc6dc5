//! The word list of SLIP-0039.
ghost use Rattle.std.specs.Prelude.{◌≡◌, ℕ, List, false, map, true, IfSome};
ghost use Rattle.s39_words.specs.Layout.{IsIndex};
ghost use Rattle.s39_words.specs.WordList.{word_list, index_of};
ghost use Rattle.s39_words.specs.Printing.{listed_word};
ghost use Rattle.s39_words.specs.Rows.{FitsRow, row_of, number_of_row};

use crate::size::MAX_LETTERS;

/// A word's letters, padded with spaces. A space is never part of a word.
pub(crate) type Row = [u8; MAX_LETTERS];

#[rattlefmt::skip]
static ROWS: [Row; 1024] = [
    *b"academic", *b"acid    ", *b"acne    ", *b"acquire ", *b"acrobat ", *b"activity", *b"actress ", *b"adapt   ",
    *b"adequate", *b"adjust  ", *b"admit   ", *b"adorn   ", *b"adult   ", *b"advance ", *b"advocate", *b"afraid  ",
    *b"again   ", *b"agency  ", *b"agree   ", *b"aide    ", *b"aircraft", *b"airline ", *b"airport ", *b"ajar    ",
    *b"alarm   ", *b"album   ", *b"alcohol ", *b"alien   ", *b"alive   ", *b"alpha   ", *b"already ", *b"alto    ",
    *b"aluminum", *b"always  ", *b"amazing ", *b"ambition", *b"amount  ", *b"amuse   ", *b"analysis", *b"anatomy ",
    *b"ancestor", *b"ancient ", *b"angel   ", *b"angry   ", *b"animal  ", *b"answer  ", *b"antenna ", *b"anxiety ",
    *b"apart   ", *b"aquatic ", *b"arcade  ", *b"arena   ", *b"argue   ", *b"armed   ", *b"artist  ", *b"artwork ",
    *b"aspect  ", *b"auction ", *b"august  ", *b"aunt    ", *b"average ", *b"aviation", *b"avoid   ", *b"award   ",
    *b"away    ", *b"axis    ", *b"axle    ", *b"beam    ", *b"beard   ", *b"beaver  ", *b"become  ", *b"bedroom ",
    *b"behavior", *b"being   ", *b"believe ", *b"belong  ", *b"benefit ", *b"best    ", *b"beyond  ", *b"bike    ",
    *b"biology ", *b"birthday", *b"bishop  ", *b"black   ", *b"blanket ", *b"blessing", *b"blimp   ", *b"blind   ",
    *b"blue    ", *b"body    ", *b"bolt    ", *b"boring  ", *b"born    ", *b"both    ", *b"boundary", *b"bracelet",
    *b"branch  ", *b"brave   ", *b"breathe ", *b"briefing", *b"broken  ", *b"brother ", *b"browser ", *b"bucket  ",
    *b"budget  ", *b"building", *b"bulb    ", *b"bulge   ", *b"bumpy   ", *b"bundle  ", *b"burden  ", *b"burning ",
    *b"busy    ", *b"buyer   ", *b"cage    ", *b"calcium ", *b"camera  ", *b"campus  ", *b"canyon  ", *b"capacity",
    *b"capital ", *b"capture ", *b"carbon  ", *b"cards   ", *b"careful ", *b"cargo   ", *b"carpet  ", *b"carve   ",
    *b"category", *b"cause   ", *b"ceiling ", *b"center  ", *b"ceramic ", *b"champion", *b"change  ", *b"charity ",
    *b"check   ", *b"chemical", *b"chest   ", *b"chew    ", *b"chubby  ", *b"cinema  ", *b"civil   ", *b"class   ",
    *b"clay    ", *b"cleanup ", *b"client  ", *b"climate ", *b"clinic  ", *b"clock   ", *b"clogs   ", *b"closet  ",
    *b"clothes ", *b"club    ", *b"cluster ", *b"coal    ", *b"coastal ", *b"coding  ", *b"column  ", *b"company ",
    *b"corner  ", *b"costume ", *b"counter ", *b"course  ", *b"cover   ", *b"cowboy  ", *b"cradle  ", *b"craft   ",
    *b"crazy   ", *b"credit  ", *b"cricket ", *b"criminal", *b"crisis  ", *b"critical", *b"crowd   ", *b"crucial ",
    *b"crunch  ", *b"crush   ", *b"crystal ", *b"cubic   ", *b"cultural", *b"curious ", *b"curly   ", *b"custody ",
    *b"cylinder", *b"daisy   ", *b"damage  ", *b"dance   ", *b"darkness", *b"database", *b"daughter", *b"deadline",
    *b"deal    ", *b"debris  ", *b"debut   ", *b"decent  ", *b"decision", *b"declare ", *b"decorate", *b"decrease",
    *b"deliver ", *b"demand  ", *b"density ", *b"deny    ", *b"depart  ", *b"depend  ", *b"depict  ", *b"deploy  ",
    *b"describe", *b"desert  ", *b"desire  ", *b"desktop ", *b"destroy ", *b"detailed", *b"detect  ", *b"device  ",
    *b"devote  ", *b"diagnose", *b"dictate ", *b"diet    ", *b"dilemma ", *b"diminish", *b"dining  ", *b"diploma ",
    *b"disaster", *b"discuss ", *b"disease ", *b"dish    ", *b"dismiss ", *b"display ", *b"distance", *b"dive    ",
    *b"divorce ", *b"document", *b"domain  ", *b"domestic", *b"dominant", *b"dough   ", *b"downtown", *b"dragon  ",
    *b"dramatic", *b"dream   ", *b"dress   ", *b"drift   ", *b"drink   ", *b"drove   ", *b"drug    ", *b"dryer   ",
    *b"duckling", *b"duke    ", *b"duration", *b"dwarf   ", *b"dynamic ", *b"early   ", *b"earth   ", *b"easel   ",
    *b"easy    ", *b"echo    ", *b"eclipse ", *b"ecology ", *b"edge    ", *b"editor  ", *b"educate ", *b"either  ",
    *b"elbow   ", *b"elder   ", *b"election", *b"elegant ", *b"element ", *b"elephant", *b"elevator", *b"elite   ",
    *b"else    ", *b"email   ", *b"emerald ", *b"emission", *b"emperor ", *b"emphasis", *b"employer", *b"empty   ",
    *b"ending  ", *b"endless ", *b"endorse ", *b"enemy   ", *b"energy  ", *b"enforce ", *b"engage  ", *b"enjoy   ",
    *b"enlarge ", *b"entrance", *b"envelope", *b"envy    ", *b"epidemic", *b"episode ", *b"equation", *b"equip   ",
    *b"eraser  ", *b"erode   ", *b"escape  ", *b"estate  ", *b"estimate", *b"evaluate", *b"evening ", *b"evidence",
    *b"evil    ", *b"evoke   ", *b"exact   ", *b"example ", *b"exceed  ", *b"exchange", *b"exclude ", *b"excuse  ",
    *b"execute ", *b"exercise", *b"exhaust ", *b"exotic  ", *b"expand  ", *b"expect  ", *b"explain ", *b"express ",
    *b"extend  ", *b"extra   ", *b"eyebrow ", *b"facility", *b"fact    ", *b"failure ", *b"faint   ", *b"fake    ",
    *b"false   ", *b"family  ", *b"famous  ", *b"fancy   ", *b"fangs   ", *b"fantasy ", *b"fatal   ", *b"fatigue ",
    *b"favorite", *b"fawn    ", *b"fiber   ", *b"fiction ", *b"filter  ", *b"finance ", *b"findings", *b"finger  ",
    *b"firefly ", *b"firm    ", *b"fiscal  ", *b"fishing ", *b"fitness ", *b"flame   ", *b"flash   ", *b"flavor  ",
    *b"flea    ", *b"flexible", *b"flip    ", *b"float   ", *b"floral  ", *b"fluff   ", *b"focus   ", *b"forbid  ",
    *b"force   ", *b"forecast", *b"forget  ", *b"formal  ", *b"fortune ", *b"forward ", *b"founder ", *b"fraction",
    *b"fragment", *b"frequent", *b"freshman", *b"friar   ", *b"fridge  ", *b"friendly", *b"frost   ", *b"froth   ",
    *b"frozen  ", *b"fumes   ", *b"funding ", *b"furl    ", *b"fused   ", *b"galaxy  ", *b"game    ", *b"garbage ",
    *b"garden  ", *b"garlic  ", *b"gasoline", *b"gather  ", *b"general ", *b"genius  ", *b"genre   ", *b"genuine ",
    *b"geology ", *b"gesture ", *b"glad    ", *b"glance  ", *b"glasses ", *b"glen    ", *b"glimpse ", *b"goat    ",
    *b"golden  ", *b"graduate", *b"grant   ", *b"grasp   ", *b"gravity ", *b"gray    ", *b"greatest", *b"grief   ",
    *b"grill   ", *b"grin    ", *b"grocery ", *b"gross   ", *b"group   ", *b"grownup ", *b"grumpy  ", *b"guard   ",
    *b"guest   ", *b"guilt   ", *b"guitar  ", *b"gums    ", *b"hairy   ", *b"hamster ", *b"hand    ", *b"hanger  ",
    *b"harvest ", *b"have    ", *b"havoc   ", *b"hawk    ", *b"hazard  ", *b"headset ", *b"health  ", *b"hearing ",
    *b"heat    ", *b"helpful ", *b"herald  ", *b"herd    ", *b"hesitate", *b"hobo    ", *b"holiday ", *b"holy    ",
    *b"home    ", *b"hormone ", *b"hospital", *b"hour    ", *b"huge    ", *b"human   ", *b"humidity", *b"hunting ",
    *b"husband ", *b"hush    ", *b"husky   ", *b"hybrid  ", *b"idea    ", *b"identify", *b"idle    ", *b"image   ",
    *b"impact  ", *b"imply   ", *b"improve ", *b"impulse ", *b"include ", *b"income  ", *b"increase", *b"index   ",
    *b"indicate", *b"industry", *b"infant  ", *b"inform  ", *b"inherit ", *b"injury  ", *b"inmate  ", *b"insect  ",
    *b"inside  ", *b"install ", *b"intend  ", *b"intimate", *b"invasion", *b"involve ", *b"iris    ", *b"island  ",
    *b"isolate ", *b"item    ", *b"ivory   ", *b"jacket  ", *b"jerky   ", *b"jewelry ", *b"join    ", *b"judicial",
    *b"juice   ", *b"jump    ", *b"junction", *b"junior  ", *b"junk    ", *b"jury    ", *b"justice ", *b"kernel  ",
    *b"keyboard", *b"kidney  ", *b"kind    ", *b"kitchen ", *b"knife   ", *b"knit    ", *b"laden   ", *b"ladle   ",
    *b"ladybug ", *b"lair    ", *b"lamp    ", *b"language", *b"large   ", *b"laser   ", *b"laundry ", *b"lawsuit ",
    *b"leader  ", *b"leaf    ", *b"learn   ", *b"leaves  ", *b"lecture ", *b"legal   ", *b"legend  ", *b"legs    ",
    *b"lend    ", *b"length  ", *b"level   ", *b"liberty ", *b"library ", *b"license ", *b"lift    ", *b"likely  ",
    *b"lilac   ", *b"lily    ", *b"lips    ", *b"liquid  ", *b"listen  ", *b"literary", *b"living  ", *b"lizard  ",
    *b"loan    ", *b"lobe    ", *b"location", *b"losing  ", *b"loud    ", *b"loyalty ", *b"luck    ", *b"lunar   ",
    *b"lunch   ", *b"lungs   ", *b"luxury  ", *b"lying   ", *b"lyrics  ", *b"machine ", *b"magazine", *b"maiden  ",
    *b"mailman ", *b"main    ", *b"makeup  ", *b"making  ", *b"mama    ", *b"manager ", *b"mandate ", *b"mansion ",
    *b"manual  ", *b"marathon", *b"march   ", *b"market  ", *b"marvel  ", *b"mason   ", *b"material", *b"math    ",
    *b"maximum ", *b"mayor   ", *b"meaning ", *b"medal   ", *b"medical ", *b"member  ", *b"memory  ", *b"mental  ",
    *b"merchant", *b"merit   ", *b"method  ", *b"metric  ", *b"midst   ", *b"mild    ", *b"military", *b"mineral ",
    *b"minister", *b"miracle ", *b"mixed   ", *b"mixture ", *b"mobile  ", *b"modern  ", *b"modify  ", *b"moisture",
    *b"moment  ", *b"morning ", *b"mortgage", *b"mother  ", *b"mountain", *b"mouse   ", *b"move    ", *b"much    ",
    *b"mule    ", *b"multiple", *b"muscle  ", *b"museum  ", *b"music   ", *b"mustang ", *b"nail    ", *b"national",
    *b"necklace", *b"negative", *b"nervous ", *b"network ", *b"news    ", *b"nuclear ", *b"numb    ", *b"numerous",
    *b"nylon   ", *b"oasis   ", *b"obesity ", *b"object  ", *b"observe ", *b"obtain  ", *b"ocean   ", *b"often   ",
    *b"olympic ", *b"omit    ", *b"oral    ", *b"orange  ", *b"orbit   ", *b"order   ", *b"ordinary", *b"organize",
    *b"ounce   ", *b"oven    ", *b"overall ", *b"owner   ", *b"paces   ", *b"pacific ", *b"package ", *b"paid    ",
    *b"painting", *b"pajamas ", *b"pancake ", *b"pants   ", *b"papa    ", *b"paper   ", *b"parcel  ", *b"parking ",
    *b"party   ", *b"patent  ", *b"patrol  ", *b"payment ", *b"payroll ", *b"peaceful", *b"peanut  ", *b"peasant ",
    *b"pecan   ", *b"penalty ", *b"pencil  ", *b"percent ", *b"perfect ", *b"permit  ", *b"petition", *b"phantom ",
    *b"pharmacy", *b"photo   ", *b"phrase  ", *b"physics ", *b"pickup  ", *b"picture ", *b"piece   ", *b"pile    ",
    *b"pink    ", *b"pipeline", *b"pistol  ", *b"pitch   ", *b"plains  ", *b"plan    ", *b"plastic ", *b"platform",
    *b"playoff ", *b"pleasure", *b"plot    ", *b"plunge  ", *b"practice", *b"prayer  ", *b"preach  ", *b"predator",
    *b"pregnant", *b"premium ", *b"prepare ", *b"presence", *b"prevent ", *b"priest  ", *b"primary ", *b"priority",
    *b"prisoner", *b"privacy ", *b"prize   ", *b"problem ", *b"process ", *b"profile ", *b"program ", *b"promise ",
    *b"prospect", *b"provide ", *b"prune   ", *b"public  ", *b"pulse   ", *b"pumps   ", *b"punish  ", *b"puny    ",
    *b"pupal   ", *b"purchase", *b"purple  ", *b"python  ", *b"quantity", *b"quarter ", *b"quick   ", *b"quiet   ",
    *b"race    ", *b"racism  ", *b"radar   ", *b"railroad", *b"rainbow ", *b"raisin  ", *b"random  ", *b"ranked  ",
    *b"rapids  ", *b"raspy   ", *b"reaction", *b"realize ", *b"rebound ", *b"rebuild ", *b"recall  ", *b"receiver",
    *b"recover ", *b"regret  ", *b"regular ", *b"reject  ", *b"relate  ", *b"remember", *b"remind  ", *b"remove  ",
    *b"render  ", *b"repair  ", *b"repeat  ", *b"replace ", *b"require ", *b"rescue  ", *b"research", *b"resident",
    *b"response", *b"result  ", *b"retailer", *b"retreat ", *b"reunion ", *b"revenue ", *b"review  ", *b"reward  ",
    *b"rhyme   ", *b"rhythm  ", *b"rich    ", *b"rival   ", *b"river   ", *b"robin   ", *b"rocky   ", *b"romantic",
    *b"romp    ", *b"roster  ", *b"round   ", *b"royal   ", *b"ruin    ", *b"ruler   ", *b"rumor   ", *b"sack    ",
    *b"safari  ", *b"salary  ", *b"salon   ", *b"salt    ", *b"satisfy ", *b"satoshi ", *b"saver   ", *b"says    ",
    *b"scandal ", *b"scared  ", *b"scatter ", *b"scene   ", *b"scholar ", *b"science ", *b"scout   ", *b"scramble",
    *b"screw   ", *b"script  ", *b"scroll  ", *b"seafood ", *b"season  ", *b"secret  ", *b"security", *b"segment ",
    *b"senior  ", *b"shadow  ", *b"shaft   ", *b"shame   ", *b"shaped  ", *b"sharp   ", *b"shelter ", *b"sheriff ",
    *b"short   ", *b"should  ", *b"shrimp  ", *b"sidewalk", *b"silent  ", *b"silver  ", *b"similar ", *b"simple  ",
    *b"single  ", *b"sister  ", *b"skin    ", *b"skunk   ", *b"slap    ", *b"slavery ", *b"sled    ", *b"slice   ",
    *b"slim    ", *b"slow    ", *b"slush   ", *b"smart   ", *b"smear   ", *b"smell   ", *b"smirk   ", *b"smith   ",
    *b"smoking ", *b"smug    ", *b"snake   ", *b"snapshot", *b"sniff   ", *b"society ", *b"software", *b"soldier ",
    *b"solution", *b"soul    ", *b"source  ", *b"space   ", *b"spark   ", *b"speak   ", *b"species ", *b"spelling",
    *b"spend   ", *b"spew    ", *b"spider  ", *b"spill   ", *b"spine   ", *b"spirit  ", *b"spit    ", *b"spray   ",
    *b"sprinkle", *b"square  ", *b"squeeze ", *b"stadium ", *b"staff   ", *b"standard", *b"starting", *b"station ",
    *b"stay    ", *b"steady  ", *b"step    ", *b"stick   ", *b"stilt   ", *b"story   ", *b"strategy", *b"strike  ",
    *b"style   ", *b"subject ", *b"submit  ", *b"sugar   ", *b"suitable", *b"sunlight", *b"superior", *b"surface ",
    *b"surprise", *b"survive ", *b"sweater ", *b"swimming", *b"swing   ", *b"switch  ", *b"symbolic", *b"sympathy",
    *b"syndrome", *b"system  ", *b"tackle  ", *b"tactics ", *b"tadpole ", *b"talent  ", *b"task    ", *b"taste   ",
    *b"taught  ", *b"taxi    ", *b"teacher ", *b"teammate", *b"teaspoon", *b"temple  ", *b"tenant  ", *b"tendency",
    *b"tension ", *b"terminal", *b"testify ", *b"texture ", *b"thank   ", *b"that    ", *b"theater ", *b"theory  ",
    *b"therapy ", *b"thorn   ", *b"threaten", *b"thumb   ", *b"thunder ", *b"ticket  ", *b"tidy    ", *b"timber  ",
    *b"timely  ", *b"ting    ", *b"tofu    ", *b"together", *b"tolerate", *b"total   ", *b"toxic   ", *b"tracks  ",
    *b"traffic ", *b"training", *b"transfer", *b"trash   ", *b"traveler", *b"treat   ", *b"trend   ", *b"trial   ",
    *b"tricycle", *b"trip    ", *b"triumph ", *b"trouble ", *b"true    ", *b"trust   ", *b"twice   ", *b"twin    ",
    *b"type    ", *b"typical ", *b"ugly    ", *b"ultimate", *b"umbrella", *b"uncover ", *b"undergo ", *b"unfair  ",
    *b"unfold  ", *b"unhappy ", *b"union   ", *b"universe", *b"unkind  ", *b"unknown ", *b"unusual ", *b"unwrap  ",
    *b"upgrade ", *b"upstairs", *b"username", *b"usher   ", *b"usual   ", *b"valid   ", *b"valuable", *b"vampire ",
    *b"vanish  ", *b"various ", *b"vegan   ", *b"velvet  ", *b"venture ", *b"verdict ", *b"verify  ", *b"very    ",
    *b"veteran ", *b"vexed   ", *b"victim  ", *b"video   ", *b"view    ", *b"vintage ", *b"violence", *b"viral   ",
    *b"visitor ", *b"visual  ", *b"vitamins", *b"vocal   ", *b"voice   ", *b"volume  ", *b"voter   ", *b"voting  ",
    *b"walnut  ", *b"warmth  ", *b"warn    ", *b"watch   ", *b"wavy    ", *b"wealthy ", *b"weapon  ", *b"webcam  ",
    *b"welcome ", *b"welfare ", *b"western ", *b"width   ", *b"wildlife", *b"window  ", *b"wine    ", *b"wireless",
    *b"wisdom  ", *b"withdraw", *b"wits    ", *b"wolf    ", *b"woman   ", *b"work    ", *b"worthy  ", *b"wrap    ",
    *b"wrist   ", *b"writing ", *b"wrote   ", *b"year    ", *b"yelp    ", *b"yield   ", *b"yoga    ", *b"zero    ",
];

/// The words of the list, in alphabetical order.
pub(crate) fn rows() -> &'static [Row]
    ensures { result.now ≡ map row_of word_list }
{
    &ROWS
}

/// A row as one number, so that two are compared in one step. The rows stand in the order of these numbers.
#[tactic(auto, unfolding(crate::specs::Rows::number_of_row))]
fn number_of(row: &Row) -> u64
    ensures { result ≡ number_of_row row.now }
{
    u64::from_be_bytes(*row)
}

/// The number if it is the one that is looked for, and else what was found. No branch depends on which of them it is.
fn picked(found: u64, number: u64, is_sought: bool) -> u64
    ensures found { is_sought ≡ false → result ≡ found }
    ensures number { is_sought ≡ true → found ≡ 0 → result ≡ number }
{
    if is_sought { found | number } else { found }
}

/// The row of the word at an index, 0 to 1023. All rows are read, so that no address depends on the index.
#[inline(never)]
pub(crate) fn row_at(index: u16) -> Row
    requires { IsIndex index }
    ensures { result ≡ row_of (listed_word index) }
{
    let mut found = 0;
    for (i, row) in rows().iter().enumerate() {
        found = picked(found, number_of(row), i == usize::from(index));
    }
    found.to_be_bytes()
}

/// The index of a word in the list, 0 to 1023, by the number of its row, or `None` if the list doesn't have it.
pub(crate) fn index_of_number(number: u64) -> Option<u16>
    ensures same { (word : List ℕ) → FitsRow word → number ≡ number_of_row (row_of word)
        → result ≡ index_of word }
    ensures in_list { IfSome result (λ index. IsIndex index) }
{
    match rows().binary_search_by_key(&number, number_of) {
        Ok(index) => Some(index as u16),
        Err(_) => None,
    }
}
