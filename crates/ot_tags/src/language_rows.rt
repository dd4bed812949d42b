//! The OpenType tags of languages, as `tools/language_tags` writes them from OpenType's registry of language systems.

/// A row of sixteen bytes for each code, in the order of the codes: the code with `-` behind one of two letters, three tags
/// with `----` for each that is missing, and the end of the line.
pub(crate) static LANGUAGE_ROWS: &str = "\
aa-AFR --------
aaeSQI --------
aaoARA --------
aatSQI --------
ab-ABK --------
aba------------
abhARA --------
abqABA --------
absCPP --------
abvARA --------
acfFAN CPP ----
acmARA --------
acqARA --------
acrACR MYN ----
acwARA --------
acxARA --------
acyACY ARA ----
adaDNG --------
adfARA --------
adpDZN --------
aebARA --------
aecARA --------
af-AFK --------
afbARA --------
afk------------
afsCPP --------
aguMYN --------
agw------------
ahgAGW --------
ahtATH --------
aigCPP --------
aiiSWA SYR ----
aiwARI --------
ajpARA --------
ajtARA --------
ak-AKA --------
akbAKB BTK ----
alnSQI --------
alsSQI --------
am-AMH --------
amfHBN --------
amwSYR --------
an-ARG --------
aoaCPP --------
apaATH --------
apcARA --------
apdARA --------
apjATH --------
apkATH --------
aplATH --------
apmATH --------
apwATH --------
ar-ARA --------
arbARA --------
ari------------
ark------------
arnMAP --------
arqARA --------
arsARA --------
aryMOR ARA ----
arzARA --------
as-ASM --------
atjRCR --------
atvALT --------
aujBBR --------
auzARA --------
av-AVR --------
avlARA --------
ay-AYM --------
aycAYM --------
ayhARA --------
aylARA --------
aynARA --------
aypARA --------
ayrAYM --------
az-AZE --------
azbAZB AZE ----
azdNAH --------
azjAZE --------
aznNAH --------
azzNAH --------
ba-BSH --------
badBAD0--------
bag------------
bahCPP --------
baiBML --------
balBLI --------
bau------------
bbcBBC BTK ----
bbjBML --------
bbpBAD0--------
bbr------------
bbzARA --------
bccBLI --------
bch------------
bciBAU --------
bclBIK --------
bcqBCH --------
bcrATH --------
be-BEL --------
beaATH --------
bebBTI --------
berBBR --------
bewCPP --------
bflBAD0--------
bfqBAD --------
bftBLT --------
bfuLAH --------
bfyBAG --------
bg-BGR --------
bgnBLI --------
bgpBLI --------
bgqBGQ RAJ ----
bgrQIN --------
bhbBHI --------
bhkBIK --------
bhrMLG --------
bi-BIS CPP ----
bil------------
binEDO --------
biuQIN --------
bjnMLY --------
bjoBAD0--------
bjqMLG --------
bjsCPP --------
bjtBLN --------
bkf------------
bkoBML --------
blaBKF --------
bleBLN --------
blgIBA --------
bli------------
blkBLK KRN ----
blnBIK --------
blt------------
bm-BMB --------
bmb------------
bml------------
bmmMLG --------
bn-BEN --------
bo-TIB --------
bpdBAD0--------
bplCPP --------
bpqCPP --------
bqiLRC --------
bqkBAD0--------
br-BRE --------
braBRI --------
brcCPP --------
bri------------
brm------------
bs-BOS --------
bsh------------
btbBTI --------
btdBTD BTK ----
bti------------
btjMLY --------
btmBTM BTK ----
btoBIK --------
btsBTS BTK ----
btxBTX BTK ----
btzBTZ BTK ----
bumBTI --------
bveMLY --------
bvuMLY --------
bweKRN --------
bxkLUH --------
bxoCPP --------
bxpBTI --------
bxrRBU --------
bynBIL --------
byvBYV BML ----
bzcMLG --------
bzjCPP --------
bzkCPP --------
ca-CAT --------
caaMYN --------
cacMYN --------
cafCRR ATH ----
cakCAK MYN ----
cbkCBK CPP ----
cblQIN --------
cclCPP --------
ccmCPP --------
ccoCCHN--------
ccqARK --------
cdoZHS --------
ce-CHE --------
cekQIN --------
ceyQIN --------
cfmHAL QIN ----
ch-CHA --------
chfMYN --------
chg------------
chh------------
chjCCHN--------
chkCHK0--------
chmHMA LMA ----
chnCPP --------
chpCHP SAY ATH 
chqCCHN--------
chzCCHN--------
ciwOJB --------
cjyZHS --------
ckaQIN --------
ckbKUR --------
cknQIN --------
cksCPP --------
cktCHK --------
ckzMYN --------
clcATH --------
cldSYR --------
cleCCHN--------
cljQIN --------
clsSAN --------
cltQIN --------
cmnZHS --------
cmrQIN --------
cnbQIN --------
cnhQIN --------
cnkQIN --------
cnlCCHN--------
cnpZHS --------
cnrSRB --------
cntCCHN--------
cnuBBR --------
cnwQIN --------
co-COS --------
coaMLY --------
cobMYN --------
coqATH --------
cpaCCHN--------
cpeCPP --------
cpfCPP --------
cpiCPP --------
cpxZHS --------
cqdHMN --------
cquQUH QUZ ----
cr-CRE --------
crhCRT --------
criCPP --------
crjECR YCR CRE 
crkWCR YCR CRE 
crlECR YCR CRE 
crmMCR LCR CRE 
crpCPP --------
crr------------
crsCPP --------
crt------------
crxCRR ATH ----
cs-CSY --------
csaCCHN--------
cshQIN --------
csjQIN --------
csl------------
csoCCHN--------
cspZHS --------
csvQIN --------
cswNCR NHC CRE 
csyQIN --------
ctcATH --------
ctdQIN --------
cteCCHN--------
cthQIN --------
ctlCCHN--------
ctsBIK --------
ctuMYN --------
cu-CSL --------
cucCCHN--------
cv-CHU --------
cvnCCHN--------
cwdDCR TCR CRE 
cy-WEL --------
czhZHS --------
czoZHS --------
cztQIN --------
da-DAN --------
daoQIN --------
dapNIS --------
dcrCPP --------
de-DEU --------
denSLA ATH ----
depCPP --------
dgoDGO DGR ----
dgrATH --------
dhdMAW --------
dhv------------
dibDNK --------
dikDNK --------
dinDNK --------
dipDNK --------
diqDIQ ZZA ----
diwDNK --------
djeDJR --------
djkCPP --------
djrDJR0--------
dksDNK --------
dngDUN --------
dnk------------
doiDGR --------
drhMNG --------
dri------------
drwDRI FAR ----
dsbLSB --------
dtyNEP --------
dun------------
dupMLY --------
dv-DIV DHV ----
dwkKUI --------
dwuDUJ --------
dwyDUJ --------
dyuJUL --------
dz-DZN --------
dzn------------
ecr------------
ee-EWE --------
ekkETI --------
ekyKRN --------
el-ELL --------
emkEMK MNK ----
emyMYN --------
en-ENG --------
enbKAL --------
enfFNE --------
enhTNE --------
eo-NTO --------
es-ESP --------
esgGON --------
esiIPK --------
eskIPK --------
et-ETI --------
etoBTI --------
eu-EUQ --------
euq------------
eveEVN --------
evnEVK --------
ewoBTI --------
eyoKAL --------
fa-FAR --------
fabCPP --------
fanFAN0BTI ----
far------------
fatFAT AKA ----
fblBIK --------
ff-FUL --------
ffmFUL --------
fi-FIN --------
filPIL --------
fj-FJI --------
flmHAL QIN ----
fmpFMP BML ----
fngCPP --------
fo-FOS --------
fos------------
fpeCPP --------
fr-FRA --------
fubFUL --------
fucFUL --------
fueFUL --------
fufFTA FUL ----
fuhFUL --------
fuiFUL --------
fuqFUL --------
furFRL --------
fuvFUV FUL ----
fy-FRI --------
ga-IRI IRT ----
gaaGAD --------
gacCPP --------
gad------------
gae------------
gal------------
ganZHS --------
gar------------
gaw------------
gaxORO --------
gazORO --------
gbmGAW --------
gceATH --------
gcfCPP --------
gclCPP --------
gcrCPP --------
gd-GAE --------
gdaRAJ --------
ggoGON --------
ghaBBR --------
ghcIRT --------
ghkKRN --------
ghoBBR --------
gibCPP --------
gilGIL0--------
gjuRAJ --------
gkpGKP KPL ----
gl-GAL --------
gldNAN --------
gmz------------
gn-GUA --------
gnbQIN --------
gnoGON --------
gnwGUA --------
gomKOK --------
goqCPP --------
goxBAD0--------
gpeCPP --------
gro------------
grrBBR --------
grtGRO --------
gruSOG --------
gswALS --------
gu-GUJ --------
gua------------
gugGUA --------
guiGUA --------
gukGMZ --------
gulCPP --------
gunGUA --------
gv-MNX --------
gwiATH --------
gynCPP --------
ha-HAU --------
haaATH --------
haeORO --------
haiHAI0--------
hakZHS --------
hal------------
harHRI --------
haxHAI0--------
hbn------------
hcaCPP --------
hdnHAI0--------
he-IWR --------
heaHMN --------
hi-HIN --------
hjiMLY --------
hltQIN --------
hmaHMN --------
hmcHMN --------
hmdHMD HMN ----
hmeHMN --------
hmgHMN --------
hmhHMN --------
hmiHMN --------
hmjHMN --------
hmlHMN --------
hmmHMN --------
hmpHMN --------
hmqHMN --------
hmrQIN --------
hmsHMN --------
hmwHMN --------
hmyHMN --------
hmzHMZ HMN ----
hneCHH --------
hnjHMN --------
hnoHND --------
ho-HMO CPP ----
hocHO  --------
hoiATH --------
hojHAR RAJ ----
hr-HRV --------
hraQIN --------
hrmHMN --------
hsbUSB --------
hsnZHS --------
ht-HAI CPP ----
hu-HUN --------
hujHMN --------
hupATH --------
husMYN --------
hwcCPP --------
hy-HYE0HYE ----
hywHYE --------
hz-HER --------
ia-INA --------
ibyIJO --------
icrCPP --------
id-IND MLY ----
idaLUH --------
idbCPP --------
ie-ILE --------
ig-IBO --------
igbEBI --------
ihbCPP --------
ii-YIM --------
ijcIJO --------
ijeIJO --------
ijnIJO --------
ijsIJO --------
ik-IPK --------
ikeINU INUK----
iktINU --------
in-IND MLY ----
ingATH --------
inhING --------
io-IDO --------
iri------------
is-ISL --------
ism------------
it-ITA --------
itzMYN --------
iu-INU INUK----
iw-IWR --------
ixlMYN --------
ja-JAN --------
jacMYN --------
jakMLY --------
jamJAM CPP ----
jan------------
jaxMLY --------
jbeBBR --------
jbnBBR --------
jgoBML --------
ji-JII --------
jii------------
jkmKRN --------
jkpKRN --------
jud------------
jul------------
jv-JAV --------
jvdCPP --------
jw-JAV --------
ka-KAT --------
kaaKRK --------
kabKAB0BBR ----
kac------------
kamKMB --------
karKRN --------
kbdKAB --------
kbyKNR --------
kcaKHK KHS KHV 
kcnCPP --------
kdrKRM --------
kdtKUY --------
keaKEA CPP ----
keb------------
kekKEK MYN ----
kexKKN --------
kfaKOD --------
kfrKAC --------
kfxKUL --------
kfyKMN --------
kg-KON0--------
kge------------
khaKSI --------
khbXBD --------
khkMNG --------
khn------------
khs------------
khtKHT KHN ----
khv------------
ki-KIK --------
kis------------
kiuKIU ZZA ----
kj-KUA --------
kjbMYN --------
kjhKHA --------
kjpKJP KRN ----
kjtKRN --------
kk-KAZ --------
kkn------------
kkzATH --------
kl-GRN --------
klm------------
klnKAL --------
km-KHM --------
kmbMBN --------
kmn------------
kmo------------
kmrKUR --------
kms------------
kmvCPP --------
kmwKMO --------
kn-KAN --------
kncKNR --------
kngKON0--------
knjMYN --------
knnKOK --------
knr------------
ko-KOR KOH ----
kod------------
koh------------
koiKOP KOM ----
kop------------
koyATH --------
koz------------
kpeKPL --------
kpl------------
kppKRN --------
kpvKOZ KOM ----
kpyKYK --------
kqsKIS --------
kqyKRT --------
kr-KNR --------
krcKAR BAL ----
kriKRI CPP ----
krk------------
krm------------
krn------------
krtKNR --------
kruKUU --------
ks-KSH --------
kshKSH0--------
ksi------------
ksm------------
kssKIS --------
kswKSW KRN ----
ktbKEB --------
ktuKON --------
ktwATH --------
ku-KUR --------
kui------------
kul------------
kuuATH --------
kuwBAD0--------
kuy------------
kv-KOM --------
kvbMLY --------
kvlKRN --------
kvqKVQ KRN ----
kvrMLY --------
kvtKRN --------
kvuKRN --------
kvyKRN --------
kw-COR --------
kwwCPP --------
kwyKON0--------
kxcKMS --------
kxdMLY --------
kxfKRN --------
kxkKRN --------
kxlKUU --------
kxuKUI --------
ky-KIR --------
kyk------------
kyuKYU KRN ----
la-LAT --------
lacMYN --------
ladJUD --------
lah------------
lak------------
lam------------
laz------------
lb-LTZ --------
lbeLAK --------
lbjLDK --------
lblBIK --------
lceMLY --------
lcfMLY --------
ldiKON0--------
ldk------------
lg-LUG --------
li-LIM --------
lifLMB --------
lirCPP --------
liwMLY --------
liyBAD0--------
lkbLUH --------
lkoLUH --------
lksLUH --------
lldLAD --------
lma------------
lmb------------
lmnLAM --------
lmw------------
ln-LIN --------
lnaBAD0--------
lnlBAD0--------
lo-LAO --------
louCPP --------
lriLUH --------
lrmLUH --------
lrtCPP --------
lsb------------
lsmLUH --------
lt-LTH --------
ltgLVI --------
lth------------
ltoLUH --------
ltsLUH --------
lu-LUB --------
lusMIZ QIN ----
luyLUH --------
luzLRC --------
lv-LVI --------
lvi------------
lvsLVI --------
lwgLUH --------
lzhZHT --------
lzzLAZ --------
maiMTH --------
maj------------
makMKR --------
mamMAM MYN ----
manMNK --------
map------------
maw------------
maxMLY CPP ----
mbfCPP --------
mbn------------
mch------------
mcmCPP --------
mcr------------
mctBTI --------
mde------------
mdfMOK --------
mdyMLE --------
menMDE --------
meoMLY --------
mfaMFA MLY ----
mfbMLY --------
mfeMFE CPP ----
mfpCPP --------
mg-MLG --------
mgaSGA --------
mh-MAH --------
mhcMYN --------
mhrLMA --------
mhvARK --------
mi-MRI --------
minMIN MLY ----
miz------------
mk-MKD --------
mknCPP --------
mkr------------
mkuMNK --------
ml-MAL MLR ----
mle------------
mln------------
mlqMLN MNK ----
mlr------------
mmrHMN --------
mn-MNG --------
mncMCH --------
mnd------------
mng------------
mnhBAD0--------
mnkMND MNK ----
mnpZHS --------
mnsMAN --------
mnwMON MONT----
mnx------------
mo-MOL ROM ----
modCPP --------
mok------------
mopMYN --------
mor------------
mpeMAJ --------
mqgMLY --------
mr-MAR --------
mrhQIN --------
mrjHMA --------
ms-MLY --------
mscMNK --------
mshMLG --------
msiMLY CPP ----
mt-MTS --------
mth------------
mtrMAW --------
mts------------
mudCPP --------
muiMLY --------
mun------------
mupRAJ --------
muqHMN --------
mvbATH --------
mveMAW --------
mvfMNG --------
mwkMNK --------
mwqQIN --------
mwrMAW --------
mwwMWW HMN ----
my-BRM --------
mymMEN --------
myqMNK --------
myvERZ --------
mzbBBR --------
mzsCPP --------
na-NAU --------
nagNAG CPP ----
nanZHS --------
nas------------
nazNAH --------
nb-NOR --------
nchNAH --------
nciNAH --------
ncjNAH --------
nclNAH --------
ncr------------
ncxNAH --------
nd-NDB --------
ndb------------
ndg------------
ne-NEP --------
nefCPP --------
ng-NDG --------
nglLMW --------
ngmCPP --------
ngoSXT --------
ngr------------
nguNAH --------
nhcNAH --------
nhdGUA --------
nheNAH --------
nhgNAH --------
nhiNAH --------
nhkNAH --------
nhmNAH --------
nhnNAH --------
nhpNAH --------
nhqNAH --------
nhtNAH --------
nhvNAH --------
nhwNAH --------
nhxNAH --------
nhyNAH --------
nhzNAH --------
niqKAL --------
nis------------
nivGIL --------
njtCPP --------
njzNIS --------
nko------------
nkxIJO --------
nl-NLD --------
nlaBML --------
nleLUH --------
nlnNAH --------
nlvNAH --------
nn-NYN --------
nnhBML --------
nnzBML --------
no-NOR --------
nodNTA --------
npiNEP --------
nplNAH --------
nqoNKO --------
nr-NDB --------
nskNAS --------
nsm------------
nsuNAH --------
nto------------
nueBAD0--------
nuuBAD0--------
nuzNAH --------
nv-NAV ATH ----
nweBML --------
ny-CHI --------
nydLUH --------
nynNKL --------
oc-OCI --------
oj-OJB --------
ojcOJB --------
ojgOJB --------
ojsOCR OJB ----
ojwOJB --------
okdIJO --------
okiKAL --------
okmKOH --------
okrIJO --------
om-ORO --------
onxCPP --------
oorCPP --------
or-ORI --------
orcORO --------
ornMLY --------
oro------------
orrIJO --------
orsMLY --------
oryORI --------
os-OSS --------
otwOJB --------
ouaBBR --------
pa-PAN --------
paa------------
pal------------
papPAP0CPP ----
pas------------
pbtPAS --------
pbuPAS --------
pcePLG --------
pckQIN --------
pcmCPP --------
pduKRN --------
peaCPP --------
pelMLY --------
pesFAR --------
peyCPP --------
pgaARA CPP ----
pi-PAL --------
pihPIH CPP ----
pil------------
pisCPP --------
pkhQIN --------
pkoKAL --------
pl-PLK --------
plgPLG0--------
plk------------
pllPLG --------
plnCPP --------
plpPAP --------
pltMLG --------
pmlCPP --------
pmyCPP --------
pocMYN --------
pohPOH MYN ----
povCPP --------
ppaBAG --------
preCPP --------
prpGUJ --------
prsDRI FAR ----
ps-PAS --------
pseMLY --------
pstPAS --------
pt-PTG --------
pubQIN --------
puzQIN --------
pwoPWO KRN ----
pwwKRN --------
qu-QUZ --------
qubQWH QUZ ----
qucQUC MYN ----
qudQVI QUZ ----
qufQUZ --------
qugQVI QUZ ----
quhQUH QUZ ----
qukQUZ --------
qulQUH QUZ ----
qumMYN --------
qupQVI QUZ ----
qurQWH QUZ ----
qusQUH QUZ ----
quvMYN --------
quwQVI QUZ ----
quxQWH QUZ ----
quyQUZ --------
qvaQWH QUZ ----
qvcQUZ --------
qveQUZ --------
qvhQWH QUZ ----
qviQVI QUZ ----
qvjQVI QUZ ----
qvlQWH QUZ ----
qvmQWH QUZ ----
qvnQWH QUZ ----
qvoQVI QUZ ----
qvpQWH QUZ ----
qvsQUZ --------
qvwQWH QUZ ----
qvzQVI QUZ ----
qwaQWH QUZ ----
qwcQUZ --------
qwhQWH QUZ ----
qwsQWH QUZ ----
qwtATH --------
qxaQWH QUZ ----
qxcQWH QUZ ----
qxhQWH QUZ ----
qxlQVI QUZ ----
qxnQWH QUZ ----
qxoQWH QUZ ----
qxpQUZ --------
qxrQVI QUZ ----
qxtQWH QUZ ----
qxuQUZ --------
qxwQWH QUZ ----
ragLUH --------
ralQIN --------
rbbPLG --------
rblBIK --------
rcfCPP --------
rifRIF BBR ----
rkiARK --------
rm-RMS --------
rmcROY --------
rmfROY --------
rmlROY --------
rmnROY --------
rmoROY --------
rms------------
rmwROY --------
rmyRMY ROY ----
rmzARK --------
rn-RUN --------
ro-ROM --------
romROY --------
ropCPP --------
rtcQIN --------
ru-RUS --------
rueRSY --------
rw-RUA --------
rwrMAW --------
sa-SAN --------
sad------------
sahYAK --------
samPAA --------
say------------
sc-SRD --------
scfCPP --------
schQIN --------
sciCPP --------
sckSAD --------
scsSCS SLA ATH 
sd-SND --------
sdcSRD --------
sdhKUR --------
sdnSRD --------
sdsBBR --------
se-NSM --------
sehSNA --------
sekATH --------
sezQIN --------
sfmSFM HMN ----
sg-SGO --------
sgcKAL --------
sgo------------
sgwCHG --------
sh-BOS HRV SRB 
shiSHI BBR ----
shlQIN --------
shuARA --------
shyBBR --------
si-SNH --------
sib------------
sig------------
sizBBR --------
sjdKSM --------
sjoSIB --------
sjsBBR --------
sk-SKY --------
skgMLG --------
skrSRK --------
sks------------
skwCPP --------
sky------------
sl-SLV --------
sla------------
sm-SMO --------
smaSSM --------
smdMBN --------
smjLSM --------
sml------------
smnISM --------
smsSKS --------
smtQIN --------
sn-SNA0--------
snbIBA --------
snh------------
so-SML --------
sog------------
spvORI --------
spyKAL --------
sq-SQI --------
sr-SRB --------
srb------------
srcSRD --------
srk------------
srmCPP --------
srnCPP --------
sroSRD --------
srsATH --------
ss-SWZ --------
sshARA --------
ssl------------
ssm------------
st-SOT --------
staCPP --------
stvSIG --------
su-SUN --------
suqSUR --------
sur------------
sv-SVE --------
svcCPP --------
sve------------
sw-SWK --------
swbCMR --------
swcSWK --------
swhSWK --------
swk------------
swnBBR --------
swvMAW --------
sycSYR --------
ta-TAM --------
taaATH --------
taj------------
taqTAQ TMH BBR 
tasCPP --------
tauATH --------
tcbATH --------
tceATH --------
tchCPP --------
tcpQIN --------
tcsCPP --------
tcyTUL --------
tczQIN --------
tdxMLG --------
te-TEL --------
tecKAL --------
temTMN --------
tezBBR --------
tfnATH --------
tg-TAJ --------
tghCPP --------
tgjNIS --------
tgn------------
tgr------------
tgxATH --------
tgy------------
th-THA --------
thtATH --------
thvTHV TMH BBR 
thzTHZ TMH BBR 
ti-TGY --------
tiaBBR --------
tigTGR --------
tjoBBR --------
tk-TKM --------
tkgMLG --------
tkm------------
tl-TGL --------
tmgCPP --------
tmhTMH BBR ----
tmn------------
tmwMLY --------
tn-TNA --------
tna------------
tne------------
tnfDRI FAR ----
tng------------
to-TGN --------
todTOD0--------
toiTNG --------
tojMYN --------
tolATH --------
torBAD0--------
tpiTPI CPP ----
tr-TRK --------
trfCPP --------
trk------------
truTUA SYR ----
ts-TSG --------
tsg------------
tt-TAT --------
ttcMYN --------
ttmATH --------
ttqTTQ TMH BBR 
tua------------
tul------------
tuuATH --------
tuv------------
tuyKAL --------
tvyCPP --------
tw-TWI AKA ----
txcATH --------
txyMLG --------
ty-THT --------
tyvTUV --------
tzhMYN --------
tzjMYN --------
tzmTZM BBR ----
tzoTZO MYN ----
ublBIK --------
ug-UYG --------
uk-UKR --------
ukiKUI --------
ulnCPP --------
unrMUN --------
ur-URD --------
urkMLY --------
uspMYN --------
uz-UZB --------
uznUZB --------
uzsUZB --------
vapQIN --------
ve-VEN --------
vi-VIT --------
vicCPP --------
vit------------
vkkMLY --------
vkpCPP --------
vktMLY --------
vlsFLE --------
vmwMAK --------
vo-VOL --------
vroVRO ETI ----
vsnSAN --------
wa-WLN --------
wag------------
wbmWA  --------
wbrWAG RAJ ----
weaKRN --------
wesCPP --------
weuQIN --------
wlcCMR --------
wleSIG --------
wlkATH --------
wniCMR --------
wo-WLF --------
wryMAW --------
wsgGON --------
wuuZHS --------
wyaWDT WYN ----
xalKLM TOD ----
xanSEK --------
xbd------------
xh-XHS --------
xmgBML --------
xmmMLY CPP ----
xmvMLG --------
xmwMLG --------
xnjSXT --------
xnqSXT --------
xnrDGR --------
xpeXPE KPL ----
xslSSL SLA ATH 
xstSIG --------
xupATH --------
xwoTOD --------
yajBAD0--------
yak------------
yba------------
ybbBML --------
ybdARK --------
ycrCPP --------
yddJII --------
yi-JII --------
yihJII --------
yim------------
yo-YBA --------
yosQIN --------
yuaMYN --------
yueZHH --------
za-ZHA --------
zchZHA --------
zdjCMR --------
zehZHA --------
zenBBR --------
zgbZHA --------
zghZGH BBR ----
zgmZHA --------
zgnZHA --------
zh-ZHS --------
zhdZHA --------
zhnZHA --------
zkbKHA --------
zljZHA --------
zlmMLY --------
zlnZHA --------
zlqZHA --------
zmiMLY --------
zmzBAD0--------
znd------------
zneZND --------
zomQIN --------
zqeZHA --------
zsmMLY --------
zu-ZUL --------
zumLRC --------
zybZHA --------
zygZHA --------
zyjZHA --------
zynZHA --------
zypQIN --------
zzjZHA --------
";
